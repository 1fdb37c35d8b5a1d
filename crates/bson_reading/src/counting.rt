//! How many elements bytes hold, told by their lengths alone: so much room is made before they are read.
ghost use Rattle.std.specs.Prelude.{◌+◌, ◌≤◌, length, IfSome};

use crate::parts::zero_place;

/// How many elements begin in the bytes, up to one whose length can't be told.
pub(crate) fn elements_in(bytes: &[u8]) -> usize
    ensures { result ≤ length bytes.now }
{
    let mut count = 0;
    let mut rest = bytes;
    while let Some(after) = past_element(rest) {
        count += 1;
        rest = after;
    }
    count
}

/// What stands behind the first element.
#[inline(always)]
fn past_element(bytes: &[u8]) -> Option<&[u8]>
    ensures { IfSome result (λ rest. length rest.now + 1 ≤ length bytes.now) }
{
    let (kind, rest) = bytes.split_first()?;
    let place = zero_place(rest)?;
    let (_, rest) = rest.split_at(place);
    let (_, rest) = rest.split_first()?;
    let count = value_len(*kind, rest)?;
    rest.get(count..)
}

/// The length of a value, by its type and its first bytes.
#[inline(always)]
fn value_len(kind: u8, bytes: &[u8]) -> Option<usize> {
    match kind {
        1 | 9 | 17 | 18 => Some(8),
        2 | 13 | 14 => Some(number_in(bytes)?.saturating_add(4)),
        3 | 4 => number_in(bytes),
        5 => Some(number_in(bytes)?.saturating_add(5)),
        6 | 10 | 127 | 255 => Some(0),
        7 => Some(12),
        8 => Some(1),
        16 => Some(4),
        19 => Some(16),
        _ => None,
    }
}

#[inline(always)]
fn number_in(bytes: &[u8]) -> Option<usize> {
    let chunk = bytes.first_chunk::<4>()?;
    Some(u32::from_le_bytes(*chunk) as usize)
}
