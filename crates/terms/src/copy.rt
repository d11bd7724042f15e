//! Copies of terms from row to row, as they stand or in the form of goals.

ghost use Rattle.std.specs.Prelude.{◌≡◌, ◌<◌, true, [], length};
ghost use Rattle.terms.specs.Goals.{goal_form};
ghost use Rattle.terms.specs.Rows.{build, meaning};
ghost use Rattle.terms.specs.Places.{is_leaf};
ghost use Rattle.terms.specs.RowViews.{row_nodes};
ghost use Rattle.terms.specs.Copies.{Standard, Any, Reads, formed, passed_on, CopiedIn, LaidIn};

use crate::form::Form;
use crate::known::{CALL, COMMA, SEMICOLON};
use crate::node::Node;
use crate::row::Row;

/// Appends a copy of the whole term at `at` and answers its place; parts that are shared are copied at each place.
/// None, with the target as it was, exactly where there is no such term or it does not fit.
/// Two names for one function, since a caller knows which form it wants.
pub fn copy_term(source: &Row, at: u32, target: &mut Row) -> Option<u32>
    ensures { CopiedIn Any (λ t. t) source.now at target.old target.new result }
{
    copy(source, at, Form::Plain, target)
}

/// The same in the form of a goal: a variable or an integer V at a goal position becomes call(V).
pub fn copy_goal(source: &Row, at: u32, target: &mut Row) -> Option<u32>
    ensures { CopiedIn Standard goal_form source.now at target.old target.new result }
{
    copy(source, at, Form::Goal, target)
}

// Both of these, in the form that is asked for.
fn copy(source: &Row, at: u32, form: Form, target: &mut Row) -> Option<u32>
    ensures { CopiedIn (Reads form) (formed form) source.now at target.old target.new result }
{
    if source.len() <= at as usize {
        return None;
    }
    let before = target.len();
    let place = lay(source, at, form, target);
    if place.is_none() {
        target.truncate(before);
    }
    place
}

// Appends the copy argument by argument, and then its last node. Where it does not fit, a part of it stays.
fn lay(source: &Row, at: u32, form: Form, target: &mut Row) -> Option<u32>
    requires { at < length (row_nodes source.now) }
    ensures { LaidIn (Reads form) (λ ns. formed form (meaning ns (row_nodes source.now) at))
        target.old target.new result }
{
    let node = source.nodes()[at as usize];
    match node {
        Node::App { name, arity, args } => {
            let inner = passes_on(form, name, arity);
            // eight places, as a node has; by number, since nothing is known of them behind an adapter of `iter_mut`
            let mut places = [0u32; 8];
            for (k, argument) in args[..arity as usize].iter().enumerate() {
                places[k] = lay(source, *argument, inner, target)?;
            }
            target.push(Node::App {
                name,
                arity,
                args: places,
            })
        }
        Node::Var(_) | Node::Int(_) => lay_leaf(node, form, target),
    }
}

// Appends a variable or an integer, and at a goal position the call of it.
fn lay_leaf(leaf: Node, form: Form, target: &mut Row) -> Option<u32>
    requires { is_leaf leaf ≡ true }
    ensures { LaidIn (Reads form) (λ ns. formed form (build ns [] leaf)) target.old target.new result }
{
    let place = target.push(leaf)?;
    match form {
        Form::Plain => Some(place),
        Form::Goal => target.push(Node::App {
            name: CALL,
            arity: 1,
            args: [place, 0, 0, 0, 0, 0, 0, 0],
        }),
    }
}

// The form of the arguments: those of a `,` or `;` with two of them that is a goal are goals.
fn passes_on(form: Form, name: u16, arity: u8) -> Form
    ensures { result ≡ passed_on form name arity }
{
    match form {
        Form::Goal if (name == COMMA || name == SEMICOLON) && arity == 2 => Form::Goal,
        _ => Form::Plain,
    }
}
