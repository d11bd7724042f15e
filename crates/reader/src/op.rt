//! How a term is built, step by step, from the parts of a line.

use crate::span::Span;

/// A step takes the terms that it needs from the top of a stack and puts its own there.
/// The span of a quoted name is that of its inside.
#[derive(Clone, Copy, Debug, PartialEq, Eq)]
pub enum Op {
    Variable(Span),
    Integer(Span),
    Name { span: Span, arity: usize },
    Quoted { span: Span, arity: usize },
    EmptyList,
    ListCell,
    Conjunction,
}
