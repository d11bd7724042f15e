//! Reading a whole rule or query.

ghost use Rattle.std.specs.Prelude.{◌≡◌, ◌≤◌, length, vec_capacity};
ghost use Rattle.reader.specs.Sentence.{RuleRead, QueryRead};

use crate::cursor::Cursor;
use crate::fault::LineFault;
use crate::op::Op;

/// What a rule is: a head alone, or a head and a body.
#[derive(Clone, Copy, Debug, PartialEq, Eq)]
pub enum Shape {
    Fact,
    Rule,
}

/// The fact or rule that the line is: `ops` build its head and then its body. No space stands before it.
pub fn read_rule(line: &[u8], ops: &mut Vec<Op>) -> Result<Shape, LineFault>
    requires { length line.now ≤ vec_capacity ops.old }
    ensures read { RuleRead line.now ops.new.items result }
    ensures same_room { vec_capacity ops.new ≡ vec_capacity ops.old }
{
    let mut cursor = Cursor::new(line, ops);
    let shape = cursor.rule();
    *ops = cursor.into_ops();
    Ok(shape?)
}

/// The query that the line is: `ops` build its goals. No space stands before it.
/// The twin of `read_rule` but for one call; a closure over the cursor would be no plainer.
/// `ops` is the caller's memory, so both say that its room stays.
pub fn read_query(line: &[u8], ops: &mut Vec<Op>) -> Result<(), LineFault>
    requires { length line.now ≤ vec_capacity ops.old }
    ensures read { QueryRead line.now ops.new.items result }
    ensures same_room { vec_capacity ops.new ≡ vec_capacity ops.old }
{
    let mut cursor = Cursor::new(line, ops);
    let read = cursor.query();
    *ops = cursor.into_ops();
    Ok(read?)
}
