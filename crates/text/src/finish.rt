//! What was built, copied into a row as a rule or a query.

ghost use Rattle.std.specs.Prelude.{◌≡◌};
ghost use Rattle.terms.specs.Places.{node_at};
ghost use Rattle.terms.specs.RowViews.{row_nodes, SameLimit};
ghost use Rattle.text.specs.Faults.{head_node_fault, body_node_fault, nodes_fault, Eight};
ghost use Rattle.text.specs.Finishing.{CopiesRule, FinishesRule, FinishesQuery};

use crate::answer::{QueryText, RuleText};
use crate::builder::Builder;
use crate::fault::{HeadFault, LimitFault, TextFault};
use terms::copy::{copy_goal, copy_term};
use terms::known::is_built_in;
use terms::{Node, Row};

/// The query that was built, in the form of a goal.
pub fn finish_query(builder: &Builder, row: &mut Row) -> Result<QueryText, LimitFault>
    ensures finished { FinishesQuery builder.now row.old row.new result }
    ensures limit { SameLimit row.old row.new }
{
    let [goal] = builder.stack() else {
        return Err(LimitFault::Nodes);
    };
    let goal = copy_goal(builder.row(), *goal, row).ok_or(LimitFault::Nodes)?;
    Ok(QueryText {
        goal,
        variables: builder.variables().len(),
    })
}

// The head at one place and the body at the other, which is copied in the form of a goal.
fn copy_rule(builder: &Builder, head: u32, body: u32, row: &mut Row) -> Result<RuleText, LimitFault>
    ensures copied { CopiesRule builder.now head body row.old row.new result }
    ensures limit { SameLimit row.old row.new }
{
    let head = copy_term(builder.row(), head, row).ok_or(LimitFault::Nodes)?;
    let body = copy_goal(builder.row(), body, row).ok_or(LimitFault::Nodes)?;
    Ok(RuleText {
        head,
        body,
        variables: builder.variables().len(),
    })
}

// Why a rule with this head cannot be stored.
fn head_fault(head: Option<Node>) -> Option<HeadFault>
    ensures fault { result ≡ head_node_fault head }
    ensures eight { Eight head }
{
    match head {
        Some(Node::Int(_)) => Some(HeadFault::IntegerHead),
        Some(Node::App { name, arity, .. }) => {
            is_built_in(name, usize::from(arity)).then_some(HeadFault::BuiltInHead)
        }
        Some(Node::Var(_)) | None => Some(HeadFault::VariableHead),
    }
}

// Why a rule with this body cannot be stored.
// Apart from `head_fault`, which asks of other cases.
fn body_fault(body: Option<Node>) -> Option<HeadFault>
    ensures { result ≡ body_node_fault body }
{
    match body {
        Some(Node::Int(_)) => Some(HeadFault::IntegerBody),
        _ => None,
    }
}

// Why the rule with the head and the body at these places cannot be stored.
fn places_fault(row: &Row, head: u32, body: u32) -> Option<HeadFault>
    ensures fault { result ≡ nodes_fault (row_nodes row.now) head body }
    ensures eight { Eight (node_at (row_nodes row.now) head) }
{
    head_fault(row.node(head)).or_else(|| body_fault(row.node(body)))
}

/// The rule that was built, if it can be stored.
/// Two terms and their faults, where `finish_query` has one term, so the two share `copy_goal` alone.
pub fn finish_rule(builder: &Builder, row: &mut Row) -> Result<RuleText, TextFault>
    ensures finished { FinishesRule builder.now row.old row.new result }
    ensures limit { SameLimit row.old row.new }
{
    let [head, body] = builder.stack() else {
        return Err(TextFault::Limit(LimitFault::Nodes));
    };
    let rule = copy_rule(builder, *head, *body, row)?;
    match places_fault(builder.row(), *head, *body) {
        Some(fault) => Err(TextFault::Head(fault)),
        None => Ok(rule),
    }
}
