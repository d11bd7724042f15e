//! Terms from rows of nodes.

ghost use Rattle.std.specs.Prelude.{◌≡◌, ◌<◌, ◌≤◌, [], length, take, slice_index_or};
ghost use Rattle.names.specs.View.{list};
ghost use Rattle.terms.specs.RowViews.{row_nodes};
ghost use Rattle.writer.specs.Lines.{PutsBytes, PutsTerm, PutsShown, TermAdded, term_of};
ghost use Rattle.writer.specs.Pieces.{opening_text, closing_text, further_text, head_text};

use crate::fault::DoesNotFit;
use crate::line::LineWriter;
use crate::piece::{Form, Spot, after, argument_spot, before, end, form_of, goes_on};
use names::Names;
use terms::{Node, Row};

// The bytes of a name; a number that the table does not have stands for the empty name.
fn name_of(names: &Names, name: u16) -> &[u8]
    ensures { result.now ≡ slice_index_or (list names.now) name [] }
{
    names.get(name).unwrap_or(b"")
}

// The places of the arguments, of the eight that a node has room for.
// A function of its own: its parameter's type tells the length of the array.
fn arguments(args: &[u32; 8], arity: u8) -> &[u32]
    requires { arity ≤ 8 }
    ensures { result.now ≡ take arity args.now }
{
    &args[..arity as usize]
}

impl LineWriter {
    /// Adds the term at `at`, or nothing of it where it does not all fit. Outside the row stands the number 0.
    /// Row, place and names stay apart: they belong to three owners, and a struct of borrows would be no plainer.
    pub fn term(&mut self, row: &Row, at: u32, names: &Names) -> Result<(), DoesNotFit>
        ensures { TermAdded self.old self.new (term_of names.now row.now at) result }
    {
        let length_before = self.bytes.len();
        let seen_before = self.seen.len();
        let written = self.whole(row, at, names);
        if written.is_err() {
            self.seen.truncate(seen_before);
            self.bytes.truncate(length_before);
        }
        written
    }

    // The same, but where it does not fit, a part of it stays.
    fn whole(&mut self, row: &Row, at: u32, names: &Names) -> Result<(), DoesNotFit>
        ensures { PutsShown self.old self.new (term_of names.now row.now at) result }
    {
        if row.len() <= at as usize {
            self.number(Spot::Alone, b"", 0u32)
        } else {
            self.node(row, at, names, Spot::Alone)
        }
    }

    // The term at `at` of a row, with what its spot asks for.
    fn node(&mut self, row: &Row, at: u32, names: &Names, spot: Spot) -> Result<(), DoesNotFit>
        requires { at < length (row_nodes row.now) }
        ensures { PutsTerm self.old self.new spot (term_of names.now row.now at) result }
    {
        match row.nodes()[at as usize] {
            Node::Var(variable) => self.variable(spot, variable),
            Node::Int(i) => self.number(spot, b"", i),
            Node::App { name, arity, args } => {
                let name = name_of(names, name);
                let args = arguments(&args, arity);
                let form = form_of(name, args);
                self.opening(spot, form, name)?;
                for (k, at) in args.iter().enumerate() {
                    self.node(row, *at, names, argument_spot(form, k))?;
                }
                self.closing(spot, form)
            }
        }
    }

    // What stands before the arguments.
    fn opening(&mut self, spot: Spot, form: Form, name: &[u8]) -> Result<(), DoesNotFit>
        ensures { PutsBytes self.old self.new (opening_text spot form name.now) result }
    {
        if goes_on(spot, form) {
            return self.further(form);
        }
        self.put(before(spot))?;
        self.head(form, name)
    }

    // How an open list or conjunction goes on.
    fn further(&mut self, form: Form) -> Result<(), DoesNotFit>
        ensures { PutsBytes self.old self.new (further_text form) result }
    {
        match form {
            Form::Empty => self.put(b"]"),
            Form::Constant | Form::List | Form::Conjunction | Form::Plain => self.put(b","),
        }
    }

    // The name or the bracket before the arguments.
    fn head(&mut self, form: Form, name: &[u8]) -> Result<(), DoesNotFit>
        ensures { PutsBytes self.old self.new (head_text form name.now) result }
    {
        match form {
            Form::Constant => self.name(name),
            Form::Empty => self.put(b"[]"),
            Form::List => self.put(b"["),
            Form::Conjunction => self.put(b"("),
            Form::Plain => {
                self.name(name)?;
                self.put(b"(")
            }
        }
    }

    // What stands behind the arguments.
    fn closing(&mut self, spot: Spot, form: Form) -> Result<(), DoesNotFit>
        ensures { PutsBytes self.old self.new (closing_text spot form) result }
    {
        if goes_on(spot, form) {
            return Ok(());
        }
        self.put(end(form))?;
        self.put(after(spot))
    }
}
