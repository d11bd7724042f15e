//! What a byte can begin, and the runs of bytes that tokens are made of.

ghost use Rattle.std.specs.Prelude.{◌≡◌};
ghost use Rattle.tokens.specs.Bytes.{class, in_run, word, digit, symbol};

/// The first byte of a token decides what kind of token it is.
#[derive(Clone, Copy, Debug, PartialEq, Eq)]
pub enum Kind {
    Small,
    Capital,
    Digit,
    Symbol,
    Solo,
    Quote,
    Opening,
    Closing,
    Left,
    Right,
    Bar,
    Comma,
    Stop,
    Space,
    Stray,
}

/// Bytes that go on in one token, or in one gap between tokens.
/// An enum is plainer here than a closure, since the contract of `run_end` names the test.
#[derive(Clone, Copy, Debug, PartialEq, Eq)]
pub enum Run {
    Word,
    Digits,
    Symbols,
    Spaces,
}

pub fn kind_of(b: u8) -> Kind
    ensures { result ≡ class b }
{
    match b as char {
        'a'..='z' => Kind::Small,
        'A'..='Z' | '_' => Kind::Capital,
        '0'..='9' => Kind::Digit,
        '+' | '-' | '*' | '/' | '\\' | '<' | '=' | '>' | ':' => Kind::Symbol,
        ';' | '!' => Kind::Solo,
        '\'' => Kind::Quote,
        '(' => Kind::Opening,
        ')' => Kind::Closing,
        '[' => Kind::Left,
        ']' => Kind::Right,
        '|' => Kind::Bar,
        ',' => Kind::Comma,
        '.' => Kind::Stop,
        ' ' => Kind::Space,
        _ => Kind::Stray,
    }
}

pub fn in_run(run: Run, b: u8) -> bool
    ensures { result ≡ in_run run b }
{
    match run {
        Run::Word => is_word(b),
        Run::Digits => is_digit(b),
        Run::Symbols => is_symbol(b),
        Run::Spaces => b == b' ',
    }
}

// Which bytes go on is another question than what a byte begins (`kind_of`), so the ranges stand in both.
fn is_word(b: u8) -> bool
    ensures { result ≡ word b }
{
    matches!(b as char, 'a'..='z' | 'A'..='Z' | '_' | '0'..='9')
}

fn is_digit(b: u8) -> bool
    ensures { result ≡ digit b }
{
    matches!(b as char, '0'..='9')
}

fn is_symbol(b: u8) -> bool
    ensures { result ≡ symbol b }
{
    matches!(
        b as char,
        '+' | '-' | '*' | '/' | '\\' | '<' | '=' | '>' | ':'
    )
}
