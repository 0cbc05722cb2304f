// Scans the number that begins at a place of a text.
ghost use Rattle.std.specs.Prelude.{◌≡◌};
ghost use Rattle.text.specs.NumberMoves.{next, Finished};
ghost use Rattle.text.specs.NumberScan.{Scanned, OneScan};

use crate::fault::Fault;
use crate::limits::{LONG_EXPONENT, LONGEST_NUMBER};

// A number with neither a fraction nor an exponent is whole.
#[derive(Clone, Copy, Debug, PartialEq)]
pub enum NumberKind {
    Whole,
    Decimal,
}

// What the bytes so far come to.
#[derive(Clone, Copy)]
enum State {
    Start,
    Minus,
    Zero,
    Int,
    Point,
    Frac,
    Exp,
    ExpSign,
    // What the digits write so far, as far as `LONG_EXPONENT`.
    ExpDigits(u32),
}

impl State {
    // After one more byte, if it continues a number.
    fn step(self, byte: u8) -> Option<State>
        ensures { result ≡ next self byte }
    {
        match (self, byte) {
            (State::Start, b'-') => Some(State::Minus),
            (State::Start | State::Minus, b'0') => Some(State::Zero),
            (State::Start | State::Minus, b'1'..=b'9') => Some(State::Int),
            (State::Int, b'0'..=b'9') => Some(State::Int),
            (State::Zero | State::Int, b'.') => Some(State::Point),
            (State::Point | State::Frac, b'0'..=b'9') => Some(State::Frac),
            (State::Zero | State::Int | State::Frac, b'e' | b'E') => Some(State::Exp),
            (State::Exp, b'+' | b'-') => Some(State::ExpSign),
            (State::Exp | State::ExpSign, b'0'..=b'9') => {
                Some(State::ExpDigits(u32::from(byte - b'0')))
            }
            (State::ExpDigits(size), b'0'..=b'9') => {
                let size = size
                    .saturating_mul(10)
                    .saturating_add(u32::from(byte - b'0'));
                Some(State::ExpDigits(size.min(LONG_EXPONENT)))
            }
            _ => None,
        }
    }

    // The number from `at` to `end` that the bytes so far are: its end and its kind.
    fn finish(self, at: usize, end: usize) -> Result<(usize, NumberKind), Fault>
        ensures { Finished self at end result }
    {
        match self {
            State::Zero | State::Int => Ok((end, NumberKind::Whole)),
            State::ExpDigits(LONG_EXPONENT..) => Err(Fault::LongNumber(at)),
            State::Frac | State::ExpDigits(_) => Ok((end, NumberKind::Decimal)),
            _ => Err(Fault::BadText(at)),
        }
    }
}

// The number that begins at `at`: where it ends, and its kind.
pub fn scan(text: &[u8], at: usize) -> Result<(usize, NumberKind), Fault>
    ensures { Scanned text.now at result }
{
    let rest = &text[at.min(text.len())..];
    let mut state = State::Start;
    for (taken, byte) in rest.iter().enumerate() {
        let Some(next) = state.step(*byte) else {
            return state.finish(at, at + taken);
        };
        if taken >= LONGEST_NUMBER {
            return Err(Fault::LongNumber(at));
        }
        state = next;
    }
    state.finish(at, at + rest.len())
}

// The contract of `scan` has one answer at each place of each text.
pub fn one_scan()
    ensures { OneScan }
{}
