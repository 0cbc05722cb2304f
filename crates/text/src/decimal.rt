// Normal forms of numbers.
ghost use Rattle.std.specs.Prelude.{◌≡◌, ◌+◌, ◌<◌, ◌≤◌, length, ℤ, pos, ◌+ℤ◌, ◌-ℤ◌, vec_capacity, unsigned_abs};
ghost use Rattle.text.specs.declared.number.NumberKind.TheVariants.{Whole};
ghost use Rattle.text.specs.NumberGrammar.{Number};
ghost use Rattle.text.specs.NumberWorth.{NumbersWrite, WritersAreNumbers, WritesOnce, WorthIsEquivalence};
ghost use Rattle.text.specs.NormalForm.{DigitsFirst, Sized, Led, Powered, Grown, Trimmed, Signs, Split, Told, WholeOf, WholeNormal, OfWhole, FormsAreUnique, EqualNumbersEqualForms, EqualFormsEqualNumbers, WholesAreUnique};

use crate::fault::Fault;
use crate::limits::{LONG_EXPONENT, LONGEST_NUMBER};
use crate::run::run_len;

// Sign and exponent of a decimal in normal form; its digits stand elsewhere.
#[derive(Clone, Copy, Debug, PartialEq)]
pub struct Scale {
    pub negative: bool,
    pub exponent: i32,
}

impl Scale {
    // Of zero, whose digit is `0`.
    pub const ZERO: Scale = Scale {
        negative: false,
        exponent: 0,
    };
}

// The parts of a number after its minus: the digits of its integer and of its fraction, and its exponent from the mark on.
#[derive(Clone, Copy)]
struct Parts<'a> {
    whole: &'a [u8],
    places: &'a [u8],
    power: &'a [u8],
}

// The digits at the front, and what follows them.
fn run(text: &[u8]) -> (&[u8], &[u8])
    ensures { DigitsFirst text.now result.0.now result.1.now }
{
    text.split_at(run_len(text, |byte| byte.is_ascii_digit()))
}

// The number that the digits write, if it has at most six after leading zeros.
fn size(digits: &[u8]) -> Option<u32>
    ensures { Sized digits.now result }
{
    let mut value: u32 = 0;
    for b in digits {
        value = value * 10 + char::from(*b).to_digit(10)?;
        if value >= LONG_EXPONENT {
            return None;
        }
    }
    Some(value)
}

// Whether a minus stands at the front, and what follows it.
fn sign(text: &[u8]) -> (bool, &[u8])
    ensures { Signs text.now result.0 result.1.now }
{
    match text.strip_prefix(b"-") {
        Some(rest) => (true, rest),
        None => (false, text),
    }
}

// The sign and the digits of an exponent, after its mark.
fn lead(power: &[u8]) -> (bool, &[u8])
    ensures { Led power.now result.0 result.1.now }
{
    let (negative, rest) = sign(power);
    if negative {
        (true, rest)
    } else {
        (false, rest.strip_prefix(b"+").unwrap_or(rest))
    }
}

// The exponent, 0 where there is none.
fn power(text: &[u8]) -> Option<i32>
    ensures { Powered text.now result }
{
    let [_, rest @ ..] = text else {
        return Some(0);
    };
    let (negative, digits) = lead(rest);
    // `as` here and below: the numbers fit, and `try_from` would add an error that cannot happen.
    let size = size(digits)? as i32;
    Some(if negative { -size } else { size })
}

// Adds digits after those from `base` on, and no zero before the first other digit.
fn add(out: &mut Vec<u8>, base: usize, digits: &[u8])
    requires above { base ≤ length out.old.items }
    requires room { length out.old.items + length digits.now ≤ vec_capacity out.old }
    ensures grown { Grown base out.old.items out.new.items digits.now }
    ensures room { vec_capacity out.new ≡ vec_capacity out.old }
{
    for b in digits {
        if *b != b'0' || out.len() > base {
            out.push_reserved(*b);
        }
    }
}

// The digits without the zeros at their end.
fn trimmed(digits: &[u8]) -> &[u8]
    ensures { Trimmed digits.now result.now }
{
    let mut rest = digits;
    while let [front @ .., b'0'] = rest {
        rest = front;
    }
    rest
}

// The parts of the number, which has no minus.
fn split(text: &[u8]) -> Parts<'_>
    ensures { Split text.now result }
{
    let (whole, rest) = run(text);
    let (places, power) = match rest.strip_prefix(b".") {
        Some(fraction) => run(fraction),
        None => (&[][..], rest),
    };
    Parts {
        whole,
        places,
        power,
    }
}

// The exponent of digits with `places` of them after the point, of which `zeros` at the end are left out.
fn exponent(power: i32, places: usize, zeros: usize) -> i32
    requires power { unsigned_abs power < 1000000 }
    requires places { places ≤ 1000 }
    requires zeros { zeros ≤ 1000 }
    ensures { result ≡ (power -ℤ pos places) +ℤ pos zeros }
{
    power - places as i32 + zeros as i32
}

// Adds the digits of the number's normal form to `out`, and gives its sign and exponent.
pub fn normal(text: &[u8], out: &mut Vec<u8>) -> Result<Scale, Fault>
    ensures { Told text.now out.old.items out.new.items (vec_capacity out.old) result }
{
    if text.len() > LONGEST_NUMBER {
        return Err(Fault::LongNumber(0));
    }
    let (negative, unsigned) = sign(text);
    let parts = split(unsigned);
    let power = power(parts.power).ok_or(Fault::LongNumber(0))?;
    let base = out.len();
    out.reserve(parts.whole.len() + parts.places.len())?;
    add(out, base, parts.whole);
    add(out, base, parts.places);
    let kept = trimmed(&out.as_slice()[base..]).len();
    let zeros = out.len() - base - kept;
    out.truncate(base + kept);
    if kept == 0 {
        out.push(b'0')?;
        return Ok(Scale::ZERO);
    }
    Ok(Scale {
        negative,
        exponent: exponent(power, parts.places.len(), zeros),
    })
}

// A whole number in normal form: `-0` is `0`, all else as it is written.
pub fn whole(text: &[u8]) -> &[u8]
    ensures pinned { WholeOf text.now result.now }
    ensures normal { Number text.now Whole → WholeNormal text.now result.now }
{
    if text == b"-0".as_slice() {
        &text[1..]
    } else {
        text
    }
}

// A whole number as a decimal in normal form: sign and exponent, and its digits, which are a part of the text.
pub fn of_whole(text: &[u8]) -> (Scale, &[u8])
    ensures { OfWhole text.now result.0 result.1.now }
{
    if text.len() > LONGEST_NUMBER {
        // Every text has an answer: an Option would give callers, whose numbers are within the limit, a case that cannot come.
        return (Scale::ZERO, text);
    }
    let (negative, digits) = sign(text);
    let kept = trimmed(digits);
    if kept.is_empty() {
        return (Scale::ZERO, digits);
    }
    let exponent = (digits.len() - kept.len()) as i32;
    (Scale { negative, exponent }, kept)
}

// Each number writes one thing, and what writes something is a number; to be worth the same is an equivalence.
pub fn worth_stands()
    ensures written { NumbersWrite }
    ensures numbers { WritersAreNumbers }
    ensures once { WritesOnce }
    ensures alike { WorthIsEquivalence }
{}

// Numbers have the same normal form exactly where they are worth the same.
pub fn forms_stand()
    ensures unique { FormsAreUnique }
    ensures equal { EqualNumbersEqualForms }
    ensures worth { EqualFormsEqualNumbers }
    ensures wholes { WholesAreUnique }
{}
