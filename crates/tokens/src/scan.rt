//! The token behind a place of a line.

ghost use Rattle.std.specs.Prelude.{◌≡◌, ◌≢◌, ◌+◌, ◌-◌, ◌<◌, ◌≤◌, Some, length, take, drop};
ghost use Rattle.tokens.specs.Bytes.{in_run, past};
ghost use Rattle.tokens.specs.Faults.{token_text};
ghost use Rattle.tokens.specs.declared.kind.Kind.TheVariants.{Symbol as a_symbol, Space as a_space};
ghost use Rattle.tokens.specs.Scanning.{head_kind, Inside, QuoteRead, TokenRead, StartsAs, StandsAt};

use crate::kind::{Kind, Run, in_run, kind_of};
use std::error::Error;
use std::fmt;

/// A token as a part of the line: a name, the inside of a quoted name with its quotes still doubled,
/// a variable, an integer with its sign, `:-`, a bracket or mark, or the end of the line.
#[derive(Clone, Copy, Debug, PartialEq, Eq)]
pub enum Token<'a> {
    Name(&'a [u8]),
    Quoted(&'a [u8]),
    Variable(&'a [u8]),
    Integer(&'a [u8]),
    Neck,
    Opening,
    Closing,
    Left,
    Right,
    Bar,
    Comma,
    Stop,
    End,
}

/// A token and its place.
#[derive(Clone, Copy, Debug, PartialEq, Eq)]
pub struct Found<'a> {
    pub token: Token<'a>,
    pub start: usize,
    pub end: usize,
}

/// A byte that begins no token, or a quoted name that is never closed; each with the place of the first bad byte.
#[derive(Clone, Copy, Debug, PartialEq, Eq)]
pub enum TokenFault {
    Stray(usize),
    Unclosed(usize),
}

impl TokenFault {
    /// What is wrong, in a sentence for the owner of the line, who is shown the place itself.
    pub fn sentence(&self) -> &'static str
        ensures { result.now ≡ token_text self.now }
    {
        match self {
            TokenFault::Stray(_) => "No token begins with this character here.",
            TokenFault::Unclosed(_) => "A quoted name is not closed.",
        }
    }
}

impl fmt::Display for TokenFault {
    ghost output = { λ fault. Some (token_text fault) };

    fn fmt<W: fmt::Write>(&self, f: &mut fmt::Formatter<W>) -> fmt::Result {
        f.write_str(self.sentence())
    }
}

impl Error for TokenFault {}

/// The kind of the byte at a place; at the end no token begins.
/// A kind and no `Option`: callers match the end as they match a byte that begins no token.
pub fn kind_at(line: &[u8], at: usize) -> Kind
    ensures value { result ≡ head_kind (drop at line.now) }
    ensures inside { Inside result at line.now }
{
    match line.get(at) {
        Some(b) => kind_of(*b),
        None => Kind::Stray,
    }
}

/// Where the longest run of that kind at `pos` ends.
pub fn run_end(line: &[u8], pos: usize, run: Run) -> usize
    ensures value { drop result line.now ≡ past (in_run run) (drop pos line.now) }
    ensures within { (pos ≤ result) × (pos ≤ length line.now → result ≤ length line.now) }
{
    // a slice and no `skip`, which would pass over all bytes before the place one by one
    let rest = &line[pos.min(line.len())..];
    pos + rest.iter().take_while(|b| in_run(run, **b)).count()
}

// Behind the quote that closes the name whose inside begins at `pos`. A doubled quote stands for one.
fn quote_end(line: &[u8], pos: usize) -> Option<usize>
    requires { pos ≤ length line.now }
    ensures { QuoteRead line.now pos result }
{
    // behind a quote that closes the name unless one more follows
    let mut closed = false;
    for (i, b) in line[pos..].iter().enumerate() {
        if *b == b'\'' {
            closed = !closed;
        } else if closed {
            return Some(pos + i);
        }
    }
    closed.then_some(line.len())
}

// The bytes from `start` to where the run behind the first of them ends, and that end.
fn run_at(line: &[u8], start: usize, run: Run) -> (&[u8], usize)
    requires inside { start < length line.now }
    ensures value { drop result.1 line.now ≡ past (in_run run) (drop (start + 1) line.now) }
    ensures bytes { result.0.now ≡ take (result.1 - start) (drop start line.now) }
    ensures long { start < result.1 }
    ensures within { result.1 ≤ length line.now }
{
    let end = run_end(line, start + 1, run);
    (&line[start..end], end)
}

// A run of symbols, and where it ends: an integer if it is a lone `-` directly before a digit, else `:-` or a name.
fn symbol_token(line: &[u8], start: usize) -> (Token<'_>, usize)
    requires { head_kind (drop start line.now) ≡ a_symbol }
    ensures { StandsAt line.now result.0 start result.1 }
{
    let (bytes, end) = run_at(line, start, Run::Symbols);
    if bytes == b"-".as_slice() && kind_at(line, end) == Kind::Digit {
        let last = run_end(line, end, Run::Digits);
        (Token::Integer(&line[start..last]), last)
    } else if bytes == b":-".as_slice() {
        (Token::Neck, end)
    } else {
        (Token::Name(bytes), end)
    }
}

// The token that begins at `start`, where no space stands.
fn token_at(line: &[u8], start: usize) -> Result<Found<'_>, TokenFault>
    requires inside { start < length line.now }
    requires no_space { head_kind (drop start line.now) ≢ a_space }
    ensures { StartsAs line.now start result }
{
    let (token, end) = match kind_at(line, start) {
        // three arms of one shape: a variant as a value would need a contract of its own
        Kind::Small => {
            let (bytes, end) = run_at(line, start, Run::Word);
            (Token::Name(bytes), end)
        }
        Kind::Capital => {
            let (bytes, end) = run_at(line, start, Run::Word);
            (Token::Variable(bytes), end)
        }
        Kind::Digit => {
            let (bytes, end) = run_at(line, start, Run::Digits);
            (Token::Integer(bytes), end)
        }
        Kind::Symbol => symbol_token(line, start),
        Kind::Quote => {
            let end = quote_end(line, start + 1).ok_or(TokenFault::Unclosed(line.len()))?;
            (Token::Quoted(&line[start + 1..end - 1]), end)
        }
        Kind::Solo => (Token::Name(&line[start..start + 1]), start + 1),
        Kind::Opening => (Token::Opening, start + 1),
        Kind::Closing => (Token::Closing, start + 1),
        Kind::Left => (Token::Left, start + 1),
        Kind::Right => (Token::Right, start + 1),
        Kind::Bar => (Token::Bar, start + 1),
        Kind::Comma => (Token::Comma, start + 1),
        Kind::Stop => (Token::Stop, start + 1),
        Kind::Space | Kind::Stray => return Err(TokenFault::Stray(start)),
    };
    Ok(Found { token, start, end })
}

/// The token behind the spaces at `pos`.
pub fn next_token(line: &[u8], pos: usize) -> Result<Found<'_>, TokenFault>
    ensures { TokenRead line.now pos result }
{
    let start = run_end(line, pos, Run::Spaces);
    if start < line.len() {
        return token_at(line, start);
    }
    Ok(Found {
        token: Token::End,
        start: line.len(),
        end: line.len(),
    })
}
