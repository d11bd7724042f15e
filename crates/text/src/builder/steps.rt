//! The steps of building.

ghost use Rattle.std.specs.Prelude.{◌≡◌, ℕ, ◌≤◌, List, length, take};
ghost use Rattle.text.specs.Builders.{PushedIn, Puts, Compounds, Joins, Steps};
ghost use Rattle.grammar.specs.Written.{var, int};
ghost use Rattle.reader.specs.Ops.{part as cut};
ghost use Rattle.names.specs.Listed.{Extends};
ghost use Rattle.names.specs.View.{list};

use crate::builder::Builder;
use crate::fault::LimitFault;
use crate::integer::integer_value;
use crate::name::unquote;
use crate::variables::number;
use names::Names;
use reader::op::Op;
use reader::span::{Span, part};
use terms::Node;
use terms::known::{COMMA, EMPTY_LIST, LIST_CELL, MAX_ARGUMENTS};

// These places as the arguments of a node.
// An array of eight, as a node has, since memory is fixed.
fn arguments(places: &[u32]) -> [u32; 8]
    requires { length places.now ≤ 8 }
    ensures { take (length places.now) result ≡ places.now }
{
    let mut args = [0u32; 8];
    args[..places.len()].copy_from_slice(places);
    args
}

impl Builder {
    // A node more, on top of the stack.
    fn push(&mut self, node: Node) -> Result<(), LimitFault>
        ensures { PushedIn self.old node self.new result }
    {
        let place = self.row.push(node).ok_or(LimitFault::Nodes)?;
        self.stack.push_reserved(place);
        Ok(())
    }

    /// The name with the `arity` terms on top of the stack as its arguments, or all where there are fewer.
    pub fn compound(&mut self, name: u16, arity: usize) -> Result<(), LimitFault>
        ensures { Compounds name arity self.old self.new result }
    {
        let count = arity.min(self.stack.len());
        if count > MAX_ARGUMENTS {
            return Err(LimitFault::Arguments);
        }
        let first = self.stack.len() - count;
        let args = arguments(&self.stack.as_slice()[first..]);
        self.stack.truncate(first);
        self.push(Node::App {
            name,
            arity: count as u8,
            args,
        })
    }

    // The name with the two terms on top of the stack as its arguments, where there are two.
    fn join(&mut self, name: u16) -> Result<(), LimitFault>
        ensures { Joins name self.old self.new result }
    {
        if self.stack.len() < 2 {
            return Ok(());
        }
        self.compound(name, 2)
    }

    /// One building step. Where a limit is passed, only `kept` speaks of the names, so it is a clause of its own.
    pub fn step(&mut self, text: &[u8], op: Op, names: &mut Names) -> Result<(), LimitFault>
        ensures kept { Extends (list names.old) (list names.new) }
        ensures built { Steps text.now op (list names.old) self.old (list names.new) self.new result }
    {
        match op {
            Op::Variable(span) => self.variable(text, span),
            Op::Integer(span) => self.integer(part(text, span)),
            Op::Name { span, arity } => {
                let name = names.intern(part(text, span))?;
                self.compound(name, arity)
            }
            Op::Quoted { span, arity } => {
                unquote(part(text, span), &mut self.spelled)?;
                let name = names.intern(self.spelled.as_slice())?;
                self.compound(name, arity)
            }
            Op::EmptyList => self.compound(EMPTY_LIST, 0),
            Op::ListCell => self.join(LIST_CELL),
            Op::Conjunction => self.join(COMMA),
        }
    }

    // A variable on top of the stack.
    fn variable(&mut self, text: &[u8], span: Span) -> Result<(), LimitFault>
        ensures { Puts text.now (var (cut text.now span.start span.end)) self.old self.new result }
    {
        let number = number(&mut self.variables, text, span)?;
        self.push(Node::Var(number))
    }

    // An integer on top of the stack.
    fn integer(&mut self, digits: &[u8]) -> Result<(), LimitFault>
        ensures { (text : List ℕ) → Puts text (int digits.now) self.old self.new result }
    {
        let value = integer_value(digits).ok_or(LimitFault::Integer)?;
        self.push(Node::Int(value))
    }
}
