//! Numbers of JSON, by their texts.
ghost use Rattle.std.specs.Prelude.{◌≡◌, ◌<◌, ◌==◌, IsTrue, false, is_some, length, option_map, slice_index, true};
ghost use Rattle.script_parts.specs.inside.Numbers.{num_of};
ghost use Rattle.script_parts.specs.inside.Tree.{number_read};
ghost use Rattle.serde_json.specs.Find.{as_i64, as_u64, of_float};
ghost use Rattle.serde_json.specs.Read.{float_of, number_from, number_of};

use fast_float::Numeral;

/// A whole number of 64 bits, or a finite float.
#[derive(Clone, Copy, Drop)]
enum Number {
    Whole(u64),
    Negative(i64),
    Float(f64),
}

impl Number {
    /// The number, where it is a whole number of 64 bits with a sign.
    fn as_i64(&self) -> Option<i64>
        ensures { result ≡ as_i64 (num_of self.now) }
    {
        match *self {
            Number::Whole(whole) => if whole <= i64::MAX as u64 {
                Some(whole as i64)
            } else {
                None
            },
            Number::Negative(below) => Some(below),
            Number::Float(_) => None,
        }
    }

    /// The number, where it is a whole number of 64 bits without a sign.
    fn as_u64(&self) -> Option<u64>
        ensures { result ≡ as_u64 (num_of self.now) }
    {
        match *self {
            Number::Whole(whole) => Some(whole),
            _ => None,
        }
    }
}

/// Whether a number is in range.
pub fn is_in_range(text: &str) -> bool
    ensures { result ≡ is_some (number_of text.now) }
{
    read_number(text).is_some()
}

/// The whole number of 64 bits with a sign that a text is.
#[tactic(auto, using(crate::proofs::Numbered::some_read, crate::proofs::Numbered::none_read))]
pub fn whole_with_sign(text: &str) -> Option<i64>
    ensures { result ≡ as_i64 (number_read text.now) }
{
    match read_number(text) {
        Some(number) => number.as_i64(),
        None => None,
    }
}

/// The whole number of 64 bits without a sign that a text is.
#[tactic(auto, using(crate::proofs::Numbered::some_read, crate::proofs::Numbered::none_read))]
pub fn whole(text: &str) -> Option<u64>
    ensures { result ≡ as_u64 (number_read text.now) }
{
    match read_number(text) {
        Some(number) => number.as_u64(),
        None => None,
    }
}

/// The number that a token of JSON writes, where it is in range.
#[inline(always)]
fn read_number(text: &str) -> Option<Number>
    ensures { option_map num_of result ≡ number_of text.now }
{
    let bytes = text.as_bytes();
    if has_minus(bytes) {
        negative(&Numeral::scan(&bytes[1..]))
    } else {
        unsigned(&Numeral::scan(bytes))
    }
}

/// The number without a sign that a numeral writes.
#[inline(always)]
fn unsigned(numeral: &Numeral<'_>) -> Option<Number>
    ensures { option_map num_of result ≡ number_from false numeral.now }
{
    match numeral.to_u64() {
        Some(whole) => Some(Number::Whole(whole)),
        None => nearest(false, numeral),
    }
}

/// The number that a numeral writes behind a minus.
#[inline(always)]
fn negative(numeral: &Numeral<'_>) -> Option<Number>
    ensures { option_map num_of result ≡ number_from true numeral.now }
{
    if let Some(below) = numeral.to_i64(true) {
        if below < 0 {
            return Some(Number::Negative(below));
        }
    }
    nearest(true, numeral)
}

/// The float that is nearest to a numeral, where it is finite.
#[inline(always)]
fn nearest(is_negative: bool, numeral: &Numeral<'_>) -> Option<Number>
    ensures { option_map num_of result ≡ float_of is_negative numeral.now }
{
    finite(numeral.to_float::<f64>(is_negative))
}

/// A float as a number, where it is finite.
#[inline(always)]
fn finite(float: f64) -> Option<Number>
    ensures { option_map num_of result ≡ of_float float }
{
    if float.is_finite() {
        Some(Number::Float(float))
    } else {
        None
    }
}

/// Whether a number begins with a minus.
#[inline(always)]
fn has_minus(bytes: &[u8]) -> bool
    ensures value { result ≡ (slice_index bytes.now 0 == 45) }
    ensures len { IsTrue result → 0 < length bytes.now }
{
    !bytes.is_empty() && bytes[0] == b'-'
}
