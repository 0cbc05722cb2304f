// The ranges of the built-in scalars.
ghost use Rattle.std.specs.Prelude.{◌≡◌, pos, nat_lt};
ghost use Rattle.text.specs.NumberWorth.{value};
ghost use Rattle.text.specs.NormalForm.{WholeForm};
ghost use Rattle.model.specs.Numbers.{in_int, below_bound};
ghost use Rattle.schema.specs.Ranges.{Numeral, comes_before, places_of};

const GREATEST_INT: &[u8] = b"2147483647";

const LEAST_INT: &[u8] = b"2147483648";

const GREATEST_SAFE: &[u8] = b"9007199254740991";

// 2^1024 - 2^970: no number of this magnitude or above rounds to a finite double.
const FLOAT_BOUND: &[u8] =
    b"179769313486231580793728971405303415079934132710037826936173778980444968292764750946649017977587207096330286416692887910946555547851940402630657488671505820681908902000708383676273854845817711531764475730270069855571366959622842914819860834936475292719074168444365510704342711559699508093042880177904174497792";

// Whether the first bytes that differ, or else the lengths, put one before the other.
fn precedes(bytes: &[u8], other: &[u8]) -> bool
    ensures { result ≡ comes_before bytes.now other.now }
{
    bytes < other
}

// Whether one whole number is below another; both are digits, with no leading zero.
fn below(digits: &[u8], bound: &[u8]) -> bool
    ensures { Numeral (pos 0) digits.now → Numeral (pos 0) bound.now → result ≡ nat_lt (value digits.now) (value bound.now) }
{
    if digits.len() == bound.len() {
        return precedes(digits, bound);
    }
    digits.len() < bound.len()
}

// Whether a whole number in normal form lies in the range of Int: -2147483648 to 2147483647.
pub fn int(text: &[u8]) -> bool
    ensures { WholeForm text.now → result ≡ in_int text.now }
{
    match text.strip_prefix(b"-") {
        Some(digits) => !below(LEAST_INT, digits),
        None => !below(GREATEST_INT, text),
    }
}

// Whether the magnitude of a whole number in normal form is at most 9007199254740991.
pub fn safe_integer(text: &[u8]) -> bool {
    !below(GREATEST_SAFE, text.strip_prefix(b"-").unwrap_or(text))
}

// How many digits stand before the point, where there are so many digits with that exponent.
fn places(count: usize, exponent: i32) -> usize
    ensures { result ≡ places_of exponent count }
{
    let power = exponent.unsigned_abs() as usize;
    if exponent < 0 {
        count.saturating_sub(power)
    } else {
        count.saturating_add(power)
    }
}

// Whether digits × 10^exponent is below 2^1024 - 2^970; the digits have no leading zero unless they are `0`.
pub fn finite(digits: &[u8], exponent: i32) -> bool
    ensures { Numeral exponent digits.now → result ≡ below_bound exponent (value digits.now) }
{
    let places = places(digits.len(), exponent);
    if places == FLOAT_BOUND.len() {
        // Zeros may follow the digits, but the last digit of the bound is none.
        return precedes(digits, FLOAT_BOUND);
    }
    places < FLOAT_BOUND.len()
}
