//! A long mixed script of calls, made by a fixed rule.

use rules::Indicator;

/// One call of a store.
#[derive(Clone, Copy, Debug, PartialEq, Eq)]
pub enum Call {
    AddFront(Indicator, u32),
    AddBack(Indicator, u32),
    First(Indicator),
    After(Indicator, u32),
    Read(u32),
    Erase(u32),
    Known(Indicator),
}

/// The state from which the next call is drawn.
#[derive(Drop)]
pub struct Script {
    state: u32,
}

impl Script {
    pub fn new() -> Script {
        Script { state: 1 }
    }

    // A number below `bound`, or 0 if that is 0.
    fn draw(&mut self, bound: u32) -> u32 {
        self.state = self
            .state
            .wrapping_mul(1_664_525)
            .wrapping_add(1_013_904_223);
        if bound == 0 {
            0
        } else {
            (self.state >> 16) % bound
        }
    }

    // One of four indicators.
    fn indicator(&mut self) -> Option<Indicator> {
        let name = if self.draw(2) == 0 { 0 } else { 511 };
        let arity = if self.draw(2) == 0 { 0 } else { 8 };
        Indicator::new(name, arity)
    }

    pub fn next_call(&mut self) -> Option<Call> {
        let kind = self.draw(16);
        let indicator = self.indicator()?;
        let label = self.draw(520);
        let size = self.draw(16);
        // numbers are matched here, since a draw from 0 to 15 decides, and each call has its share of the 16
        Some(match kind {
            0..=2 => Call::AddFront(indicator, size),
            3..=6 => Call::AddBack(indicator, size),
            7 | 8 => Call::First(indicator),
            9 | 10 => Call::After(indicator, label),
            11 | 12 => Call::Read(label),
            13 | 14 => Call::Erase(label),
            _ => Call::Known(indicator),
        })
    }
}
