//! Reading the parts of a line: a rule, a query, the neck, the goals and the end.

ghost use Rattle.tokens.specs.declared.kind.Kind.TheVariants.{Symbol as a_symbol};
ghost use Rattle.reader.specs.Parts.{FirstRead, EndRead};
ghost use Rattle.reader.specs.Cursors.{Starts, IsAt, NeckReads, GoalsReads, RuleReads, QueryReads};

use crate::cursor::Cursor;
use crate::cursor::term::repeat;
use crate::fault::{BRACKETS, TermFault};
use crate::op::Op;
use crate::sentence::Shape;
use tokens::kind::Kind;
use tokens::scan::TokenFault;

impl<'a> Cursor<'a> {
    // The fact or rule that the line is.
    pub(crate) fn rule(&mut self) -> Result<Shape, TermFault>
        requires { Starts self.old.line.now self.old }
        ensures { RuleReads self.old self.new result }
    {
        self.first()?;
        self.term(BRACKETS)?;
        self.skip_spaces();
        match self.kind() {
            Kind::Stop => {
                self.pos += 1;
                self.end()?;
                Ok(Shape::Fact)
            }
            Kind::Symbol => {
                self.neck()?;
                self.goals()?;
                Ok(Shape::Rule)
            }
            _ => Err(self.unexpected(BRACKETS)),
        }
    }

    // The query that the line is.
    pub(crate) fn query(&mut self) -> Result<(), TermFault>
        requires { Starts self.old.line.now self.old }
        ensures { QueryReads self.old self.new result }
    {
        self.first()?;
        self.goals()
    }

    // No space stands before a rule or a query.
    fn first(&self) -> Result<(), TermFault>
        ensures { FirstRead self.now.line.now self.now.pos result }
    {
        match self.kind() {
            Kind::Space => Err(TermFault::Token(TokenFault::Stray(self.pos))),
            _ => Ok(()),
        }
    }

    // The goals at the place, with commas between, and the final stop.
    fn goals(&mut self) -> Result<(), TermFault>
        ensures { GoalsReads self.old self.new result }
    {
        let count = self.terms(BRACKETS)?;
        self.pass(Kind::Stop, BRACKETS)?;
        self.end()?;
        repeat(&mut self.ops, Op::Conjunction, count - 1);
        Ok(())
    }

    // The neck, where a run of symbols stands.
    fn neck(&mut self) -> Result<(), TermFault>
        requires { IsAt a_symbol self.old }
        ensures { NeckReads self.old self.new result }
    {
        if !self.is_at(b':') {
            return Err(self.unexpected(BRACKETS));
        }
        self.pos += 1;
        if !self.is_at(b'-') {
            return Err(self.unexpected(BRACKETS));
        }
        self.pos += 1;
        match self.kind() {
            Kind::Symbol => Err(self.unexpected(BRACKETS)),
            _ => Ok(()),
        }
    }

    // Nothing stands behind the final stop.
    fn end(&self) -> Result<(), TermFault>
        ensures { EndRead self.now.line.now self.now.pos result }
    {
        if self.pos < self.line.len() {
            Err(self.unexpected(BRACKETS))
        } else {
            Ok(())
        }
    }
}
