//! Building terms as rows of nodes, step by step.

ghost use Rattle.std.specs.Prelude.{◌≡◌, ◌≤◌, length, vec_len, vec_capacity};
ghost use Rattle.terms.specs.RowViews.{row_nodes, row_limit};

use reader::span::Span;
use terms::Row;

mod build;
mod make;
mod steps;

/// The nodes so far, the places of the terms that are not yet part of another, and the variables in the order
/// in which they were met.
/// Four buffers, since memory is fixed: all of it is reserved when the builder is made.
#[derive(Drop)]
pub struct Builder {
    row: Row,
    stack: Vec<u32>,
    variables: Vec<Span>,
    spelled: Vec<u8>,
    ghost limit: { row_limit row ≡ 256 },
    ghost stacked: { vec_len stack ≤ length (row_nodes row) },
    ghost few: { vec_len variables ≤ 32 },
    ghost room: { 256 ≤ vec_capacity stack },
    ghost slots: { 32 ≤ vec_capacity variables },
    ghost letters: { 64 ≤ vec_capacity spelled },
}
