//! Reading one term, and terms with commas between.

ghost use Rattle.std.specs.Prelude.{◌≡◌, ◌+◌, ◌<◌, ◌≤◌, ◌++◌, length, drop, replicate, vec_len, vec_capacity, ◌≢◌};
ghost use Rattle.tokens.specs.declared.kind.Kind.TheVariants.{Opening as an_opening, Left as a_left, Right as a_right};
ghost use Rattle.tokens.specs.Bytes.{past, space};
ghost use Rattle.tokens.specs.Scanning.{head_kind};
ghost use Rattle.reader.specs.Cursors.{IsAt, TermReads, TermsReads, ArgumentsReads, ElementsReads};

use crate::cursor::Cursor;
use crate::fault::TermFault;
use crate::op::Op;
use crate::span::Span;
use tokens::kind::{Kind, Run};
use tokens::scan::{Found, Token, kind_at, next_token, run_end};

// The same step `count` times. (`resize` of std does not say that the capacity stays.)
pub(crate) fn repeat(ops: &mut Vec<Op>, op: Op, count: usize)
    requires { vec_len ops.old + count ≤ vec_capacity ops.old }
    ensures items { ops.new.items ≡ ops.old.items ++ replicate count op }
    ensures len { vec_len ops.new ≡ vec_len ops.old + count }
    ensures same_room { vec_capacity ops.new ≡ vec_capacity ops.old }
{
    for _ in 0..count {
        ops.push_reserved(op);
    }
}

impl<'a> Cursor<'a> {
    /// The term at the place, with `left` brackets still allowed.
    #[cycle(reading_terms)]
    pub fn term(&mut self, left: u8) -> Result<(), TermFault>
        ensures { TermReads left self.old self.new result }
    {
        let Found { token, start, end } = next_token(self.line, self.pos)?;
        let span = Span { start, end };
        self.pos = end;
        let op = match token {
            Token::Variable(_) => Op::Variable(span),
            Token::Integer(_) => Op::Integer(span),
            Token::Name(_) => Op::Name {
                span,
                arity: self.arguments(left)?,
            },
            Token::Quoted(_) => Op::Quoted {
                span: span.inside(),
                arity: self.arguments(left)?,
            },
            Token::Opening => {
                self.pos = start;
                return self.bracketed(left);
            }
            Token::Left => {
                self.pos = start;
                return self.list(left);
            }
            Token::Neck => return Err(self.unexpected(left)),
            Token::Closing | Token::Right | Token::Bar | Token::Comma | Token::Stop | Token::End =>
                return Err(TermFault::Unexpected { at: start, left }),
        };
        self.ops.push_reserved(op);
        Ok(())
    }

    // The arguments directly behind a name, if any, and their closing bracket; how many there are.
    // What opens here ends in its own way, as in `bracketed` and `list`, so each tests the brackets left for itself.
    #[cycle(reading_terms)]
    fn arguments(&mut self, left: u8) -> Result<usize, TermFault>
        ensures { ArgumentsReads left self.old self.new result }
    {
        match self.kind() {
            Kind::Opening => {
                if left == 0 {
                    return Err(TermFault::Unexpected { at: self.pos, left });
                }
                self.pos += 1;
                let count = self.terms(left - 1)?;
                self.pass(Kind::Closing, left - 1)?;
                Ok(count)
            }
            _ => Ok(0),
        }
    }

    // The conjunction in round brackets that open at the place.
    #[cycle(reading_terms)]
    fn bracketed(&mut self, left: u8) -> Result<(), TermFault>
        requires { IsAt an_opening self.old }
        ensures { TermReads left self.old self.new result }
    {
        if left == 0 {
            return Err(TermFault::Unexpected { at: self.pos, left });
        }
        self.pos += 1;
        let count = self.terms(left - 1)?;
        self.pass(Kind::Closing, left - 1)?;
        repeat(&mut self.ops, Op::Conjunction, count - 1);
        Ok(())
    }

    // The list in square brackets that open at the place.
    #[cycle(reading_terms)]
    fn list(&mut self, left: u8) -> Result<(), TermFault>
        requires { IsAt a_left self.old }
        ensures { TermReads left self.old self.new result }
    {
        if left == 0 {
            return Err(TermFault::Unexpected { at: self.pos, left });
        }
        let first = run_end(self.line, self.pos + 1, Run::Spaces);
        match kind_at(self.line, first) {
            Kind::Right => {
                self.pos = first + 1;
                self.ops.push_reserved(Op::EmptyList);
                Ok(())
            }
            _ => self.elements(left - 1),
        }
    }

    // The elements of the list whose bracket is at the place, its tail if it has one, and the closing bracket.
    #[cycle(reading_terms)]
    fn elements(&mut self, left: u8) -> Result<(), TermFault>
        requires within { self.old.pos < length self.old.line.now }
        requires some { head_kind (past space (drop (self.old.pos + 1) self.old.line.now)) ≢ a_right }
        ensures { ElementsReads left self.old self.new result }
    {
        self.pos += 1;
        let count = self.terms(left)?;
        match self.kind() {
            Kind::Right => {
                self.pos += 1;
                self.ops.push_reserved(Op::EmptyList);
                repeat(&mut self.ops, Op::ListCell, count);
                Ok(())
            }
            Kind::Bar => {
                self.pos += 1;
                self.term(left)?;
                self.skip_spaces();
                self.pass(Kind::Right, left)?;
                repeat(&mut self.ops, Op::ListCell, count);
                Ok(())
            }
            _ => Err(self.unexpected(left)),
        }
    }

    /// One or more terms with commas between, and the spaces behind the last; how many there are.
    #[cycle(reading_terms)]
    pub fn terms(&mut self, left: u8) -> Result<usize, TermFault>
        ensures { TermsReads left self.old self.new result }
    {
        // the count is the answer, and no index
        let mut count = 0;
        loop {
            self.term(left)?;
            count += 1;
            self.skip_spaces();
            match self.kind() {
                Kind::Comma => self.pos += 1,
                _ => return Ok(count),
            }
        }
    }
}
