//! The fixed bytes around a term and its arguments.

ghost use Rattle.std.specs.Prelude.{◌≡◌, length};
ghost use Rattle.writer.specs.Pieces.{argument_spot, spot_before, spot_after, form_of, stays_open, end_text};

/// Where a term is written: by itself or first in its brackets, as an argument behind another,
/// as the tail of an open list, as the right side of an open conjunction.
#[derive(Clone, Copy, Debug, PartialEq, Eq)]
pub enum Spot {
    Alone,
    Argument,
    InList,
    InConjunction,
}

/// What a name with its arguments is written as.
#[derive(Clone, Copy, Debug, PartialEq, Eq)]
pub enum Form {
    Constant,
    Empty,
    List,
    Conjunction,
    Plain,
}

/// What a name with these arguments is written as.
#[tactic(auto, using(crate::proofs::RunProperties::same_of_lengths))]
pub fn form_of(name: &[u8], args: &[u32]) -> Form
    ensures { result ≡ form_of name.now (length args.now) }
{
    match (args.len(), name) {
        (0, b"[]") => Form::Empty,
        (0, _) => Form::Constant,
        (2, b".") => Form::List,
        (2, b",") => Form::Conjunction,
        _ => Form::Plain,
    }
}

/// Where the argument with the number k is written.
pub fn argument_spot(form: Form, k: usize) -> Spot
    ensures { result ≡ argument_spot form k }
{
    if k == 0 {
        return Spot::Alone;
    }
    match form {
        Form::List => Spot::InList,
        Form::Conjunction => Spot::InConjunction,
        Form::Constant | Form::Empty | Form::Plain => Spot::Argument,
    }
}

/// Whether a tail goes on with the open list, or a right side with the open conjunction.
pub fn goes_on(spot: Spot, form: Form) -> bool
    ensures { result ≡ stays_open spot form }
{
    matches!(
        (spot, form),
        (Spot::InList, Form::Empty | Form::List) | (Spot::InConjunction, Form::Conjunction)
    )
}

/// What stands between the place and a term that does not go on with what is open.
pub fn before(spot: Spot) -> &'static [u8]
    ensures { result.now ≡ spot_before spot }
{
    match spot {
        Spot::Alone => b"",
        Spot::Argument | Spot::InConjunction => b",",
        Spot::InList => b"|",
    }
}

/// What closes the brackets of the arguments, where the last argument does not.
pub fn end(form: Form) -> &'static [u8]
    ensures { result.now ≡ end_text form }
{
    match form {
        Form::Plain => b")",
        Form::Constant | Form::Empty | Form::List | Form::Conjunction => b"",
    }
}

/// What closes the open list or conjunction behind it.
pub fn after(spot: Spot) -> &'static [u8]
    ensures { result.now ≡ spot_after spot }
{
    match spot {
        Spot::Alone | Spot::Argument => b"",
        Spot::InList => b"]",
        Spot::InConjunction => b")",
    }
}
