//! One node of a term.

/// A variable by its number, an integer, or a name with up to eight arguments.
/// An argument is the place of its node in the same row; a constant has none.
/// The arity stands beside eight places since memory is fixed, and since `Row::push` refuses a ninth argument itself.
#[derive(Clone, Copy, Debug, PartialEq, Eq)]
pub enum Node {
    Var(u32),
    Int(i32),
    App {
        name: u16,
        arity: u8,
        args: [u32; 8],
    },
}
