//! Checks a file of rules on standard input, one rule a line, and prints each as the engine understands it,
//! or why it is refused.

#![tactic(auto)]

use anyhow::bail;
use checking::{Fault, LineBuffer, Refusal, RuleChecker};
use std::env;
use std::io::{BufWriter, Read, Write};
use text::answer::RuleText;

// How many lines there were, and what became of their rules.
#[derive(Default, Drop)]
struct Tally {
    lines: u64,
    rules: u64,
    refused: u64,
}

// What checking needs from line to line.
#[derive(Drop)]
struct Session {
    checker: RuleChecker,
    line: LineBuffer,
    tally: Tally,
}

// Whether the arguments ask for a failure where a rule is refused.
fn is_strict(rt: &HostRuntime) -> anyhow::Result<bool> {
    let mut strict = false;
    for argument in env::args(rt)?.skip(1) {
        if argument.as_str() != "--strict" {
            eprintln!(rt; "rulecheck: unknown argument {argument}; the only one is --strict")?;
            bail!("unknown argument");
        }
        strict = true;
    }
    Ok(strict)
}

fn tell_accepted<W: Write>(
    out: &mut W,
    session: &mut Session,
    rule: RuleText,
) -> anyhow::Result<()> {
    session.tally.rules = session.tally.rules.saturating_add(1);
    let line = session.tally.lines;
    write!(out, "{line}: ok ")?;
    if session.checker.write(rule).is_err() {
        bail!("the rule is longer than any within the limits");
    }
    out.write_all(session.checker.written())?;
    out.write_all(b"\n")?;
    Ok(())
}

// The text of the line, and a caret under its byte at `place`.
fn point_at<W: Write>(out: &mut W, session: &Session, place: usize) -> anyhow::Result<()> {
    out.write_all(b"  ")?;
    out.write_all(session.line.bytes())?;
    let width = place.saturating_add(1);
    writeln!(out, "\n  {:>width$}", "^")?;
    Ok(())
}

fn tell_refused<W: Write>(
    out: &mut W,
    session: &mut Session,
    refusal: Refusal,
) -> anyhow::Result<()> {
    session.tally.refused = session.tally.refused.saturating_add(1);
    let line = session.tally.lines;
    let number = refusal.number();
    match refusal.fault() {
        Some(Fault { place, kind }) => {
            let column = place.saturating_add(1);
            let kind = kind.word();
            writeln!(out, "{line}: refused {number} {column} {kind}")?;
            point_at(out, session, place)?;
        }
        None => writeln!(out, "{line}: refused {number}")?,
    }
    let sentence = refusal.sentence();
    writeln!(out, "  {sentence}")?;
    Ok(())
}

// The line is complete: tells what it is, and begins the next.
fn finish_line<W: Write>(out: &mut W, session: &mut Session) -> anyhow::Result<()> {
    session.tally.lines = session.tally.lines.saturating_add(1);
    if !session.line.is_skipped() {
        match session.checker.check(&session.line) {
            Ok(rule) => tell_accepted(out, session, rule)?,
            Err(refusal) => tell_refused(out, session, refusal)?,
        }
    }
    session.line.clear();
    Ok(())
}

fn take_bytes<W: Write>(out: &mut W, session: &mut Session, bytes: &[u8]) -> anyhow::Result<()> {
    for byte in bytes {
        match *byte {
            b'\n' => finish_line(out, session)?,
            byte => session.line.push(byte),
        }
    }
    Ok(())
}

fn check_input<W: Write>(rt: &HostRuntime, out: &mut W) -> anyhow::Result<Tally> {
    let mut session = Session {
        checker: RuleChecker::new(rt.alloc())?,
        line: LineBuffer::new(rt.alloc())?,
        tally: Tally::default(),
    };
    let mut input = rt.stdin();
    // an array of the function's own: for a `BufReader` the heap may have no room
    let mut buffer = [0u8; 4096];
    for _ in 0..u64::MAX {
        let count = input.read(&mut buffer)?;
        if count == 0 {
            break;
        }
        take_bytes(out, &mut session, &buffer[..count])?;
    }
    if !session.line.is_empty() {
        finish_line(out, &mut session)?;
    }
    Ok(session.tally)
}

fn run(rt: &HostRuntime) -> anyhow::Result<()> {
    let strict = is_strict(rt)?;
    let mut out = BufWriter::new(rt.alloc(), rt.stdout())?;
    let tally = check_input(rt, &mut out)?;
    writeln!(out, "{} rules, {} refused", tally.rules, tally.refused)?;
    out.flush()?;
    if strict && tally.refused > 0 {
        bail!("a rule was refused");
    }
    Ok(())
}

fn main(rt: HostRuntime) -> anyhow::Result<()> {
    run(&rt)
}
