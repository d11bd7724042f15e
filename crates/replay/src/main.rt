//! Replays one long script of calls on a store of each make, and prints every answer.

#![tactic(auto)]

mod script;

use chainstore::ChainStore;
use rules::{Full, Indicator, Rule, RuleStore};
use script::{Call, Script};
use std::io::{BufWriter, Write};
use tablestore::TableStore;
use terms::Node;

// Small enough that the script fills the store.
const LABELS: usize = 500;

const SPACE: usize = 4096;

const CALLS: u32 = 1500;

// The call and its indicator.
fn tell_call<W: Write>(out: &mut W, call: &str, indicator: Indicator) -> anyhow::Result<()> {
    write!(out, "{call} {indicator}")?;
    Ok(())
}

fn tell_label<W: Write>(out: &mut W, answer: Option<u32>) -> anyhow::Result<()> {
    match answer {
        Some(label) => writeln!(out, " {label}")?,
        None => writeln!(out, " none")?,
    }
    Ok(())
}

// Other words than `tell_label` has, for another answer.
fn tell_added<W: Write>(out: &mut W, answer: Result<u32, Full>) -> anyhow::Result<()> {
    match answer {
        Ok(label) => writeln!(out, " label {label}")?,
        Err(Full) => writeln!(out, " full")?,
    }
    Ok(())
}

fn tell_rule<W: Write>(out: &mut W, answer: Option<Rule<'_>>) -> anyhow::Result<()> {
    match answer {
        Some(rule) => {
            let Rule {
                head,
                body,
                variables,
                indicator,
                ..
            } = rule;
            let nodes = rule.nodes.len();
            writeln!(
                out,
                " {indicator} of {nodes} nodes, {head} {body} {variables}"
            )?;
        }
        None => writeln!(out, " none")?,
    }
    Ok(())
}

// The rule that a call of the script adds: so many nodes of these, or all of them.
fn rule_of(nodes: &[Node], indicator: Indicator, size: u32) -> Rule<'_> {
    Rule {
        nodes: &nodes[..nodes.len().min(size as usize)],
        head: size / 2,
        body: size,
        variables: size % 5,
        indicator,
    }
}

fn obey<S: RuleStore, W: Write>(
    store: &mut S,
    call: Call,
    nodes: &[Node],
    out: &mut W,
) -> anyhow::Result<()> {
    match call {
        Call::AddFront(indicator, size) => {
            tell_call(out, "front", indicator)?;
            tell_added(out, store.add_front(rule_of(nodes, indicator, size)))
        }
        Call::AddBack(indicator, size) => {
            tell_call(out, "back", indicator)?;
            tell_added(out, store.add_back(rule_of(nodes, indicator, size)))
        }
        Call::First(indicator) => {
            tell_call(out, "first", indicator)?;
            tell_label(out, store.next(indicator, None))
        }
        Call::After(indicator, label) => {
            tell_call(out, "after", indicator)?;
            write!(out, " {label}")?;
            tell_label(out, store.next(indicator, Some(label)))
        }
        Call::Read(label) => {
            write!(out, "read {label}")?;
            tell_rule(out, store.read(label))
        }
        Call::Erase(label) => {
            store.erase(label);
            Ok(writeln!(out, "erase {label}")?)
        }
        Call::Known(indicator) => {
            tell_call(out, "known", indicator)?;
            let known = store.is_known(indicator);
            Ok(writeln!(out, " {known}")?)
        }
    }
}

fn replay<S: RuleStore, W: Write>(
    store: &mut S,
    nodes: &[Node],
    out: &mut W,
) -> anyhow::Result<()> {
    let mut script = Script::new();
    // so many calls, and no index
    for _ in 0..CALLS {
        if let Some(call) = script.next_call() {
            obey(store, call, nodes, out)?;
        }
    }
    Ok(())
}

fn main(rt: HostRuntime) -> anyhow::Result<()> {
    let nodes = vec![in rt.alloc(); Node::Int(7); 16]?;
    let mut out = BufWriter::new(rt.alloc(), rt.stdout())?;
    let mut table = TableStore::new(rt.alloc(), LABELS, SPACE)?;
    writeln!(out, "table")?;
    replay(&mut table, nodes.as_slice(), &mut out)?;
    let mut chain = ChainStore::new(rt.alloc(), LABELS, SPACE)?;
    writeln!(out, "chain")?;
    replay(&mut chain, nodes.as_slice(), &mut out)?;
    out.flush()?;
    Ok(())
}
