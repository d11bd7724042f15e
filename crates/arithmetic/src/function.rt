//! The functions of one and of two integers.

ghost use Rattle.std.specs.Prelude.{◌≡◌, Some};
ghost use Rattle.arithmetic.specs.Faults.{fault_text};
ghost use Rattle.arithmetic.specs.Integers.{applied, paired, quotient, modulo};

use std::error::Error;
use std::fmt;

/// Why a function gives no integer.
#[derive(Clone, Copy, Debug, PartialEq, Eq)]
pub enum ArithmeticFault {
    ZeroDivisor,
    Overflow,
}

impl fmt::Display for ArithmeticFault {
    ghost output = { λ fault. Some (fault_text fault) };

    fn fmt<W: fmt::Write>(&self, f: &mut fmt::Formatter<W>) -> fmt::Result {
        f.write_str(match self {
            ArithmeticFault::ZeroDivisor => "division by zero",
            ArithmeticFault::Overflow => "the value does not fit into 32 bits",
        })
    }
}

impl Error for ArithmeticFault {}

/// The functions of one integer.
#[derive(Clone, Copy, Debug, PartialEq, Eq)]
pub enum Unary {
    Negate,
    Absolute,
}

/// The functions of two integers.
#[derive(Clone, Copy, Debug, PartialEq, Eq)]
pub enum Binary {
    Add,
    Subtract,
    Multiply,
    Quotient,
    Modulo,
}

impl Unary {
    /// The value, or an overflow: the least integer has no opposite.
    pub fn apply(self, a: i32) -> Result<i32, ArithmeticFault>
        ensures { result ≡ applied self a }
    {
        match self {
            Unary::Negate => a.checked_neg().ok_or(ArithmeticFault::Overflow),
            Unary::Absolute => a.checked_abs().ok_or(ArithmeticFault::Overflow),
        }
    }
}

impl Binary {
    /// The value, or a zero divisor, or an overflow.
    pub fn apply(self, a: i32, b: i32) -> Result<i32, ArithmeticFault>
        ensures { result ≡ paired self a b }
    {
        match self {
            Binary::Add => a.checked_add(b).ok_or(ArithmeticFault::Overflow),
            Binary::Subtract => a.checked_sub(b).ok_or(ArithmeticFault::Overflow),
            Binary::Multiply => a.checked_mul(b).ok_or(ArithmeticFault::Overflow),
            Binary::Quotient => divided(a, b),
            Binary::Modulo => left_over(a, b),
        }
    }
}

// The quotient, rounded toward zero.
fn divided(a: i32, b: i32) -> Result<i32, ArithmeticFault>
    ensures { result ≡ quotient a b }
{
    if b == 0 {
        return Err(ArithmeticFault::ZeroDivisor);
    }
    a.checked_div(b).ok_or(ArithmeticFault::Overflow)
}

// The remainder with the sign of the divisor; by -1 it is zero, and the least integer has no quotient.
fn left_over(a: i32, b: i32) -> Result<i32, ArithmeticFault>
    ensures { result ≡ modulo a b }
{
    match b {
        0 => Err(ArithmeticFault::ZeroDivisor),
        -1 => Ok(0),
        _ => {
            let rest = a.rem_euclid(b);
            if b < 0 && rest != 0 {
                Ok(rest + b)
            } else {
                Ok(rest)
            }
        }
    }
}
