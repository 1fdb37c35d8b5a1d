//! Writes that are told by their sizes in bytes, and the longest front of them that may go out together.
ghost use Rattle.std.specs.Prelude.{◌≡◌, ◌+◌, ◌<◌, ◌≤◌, ℕ, IfErr, IfNone, IfOk, IfSome, get_or, length, map};
ghost use Rattle.driver_batches.specs.Fronts.{IsLongestFront};
ghost use Rattle.driver_batches.specs.Sizes.{Fits};

use crate::rule::Rule;

/// How much may go out together. A limit counts as kept where it is met exactly.
#[derive(Clone, Copy, Debug, PartialEq, Eq)]
pub struct Limits {
    /// At most this many writes.
    pub items: u64,
    /// At most this many bytes together.
    pub bytes: u64,
    /// At most this many bytes each.
    pub each: u64,
}

impl Rule for Limits {
    type Write = u64;

    ghost fits = { λ limits run. Fits limits run };
}

/// A write that has a size.
pub trait Measured {
    // Its size in bytes.
    ghost size: { Self → ℕ };

    /// Its size in bytes.
    fn size(&self) -> u64
        ensures { result ≡ size self.now };
}

impl Measured for u64 {
    ghost size = { λ size. size };

    fn size(&self) -> u64 {
        *self
    }
}

/// How many writes from the front may go out together: the longest front that fits, which may be empty.
pub fn longest_front<W: Measured>(writes: &[W], limits: &Limits) -> usize
    ensures { IsLongestFront (Fits limits.now) (map W.size writes.now) result }
{
    let mut total: u64 = 0;
    for i in 0..writes.len() {
        match with_next(total, i as u64, size_at(writes, i), limits) {
            Some(sum) => total = sum,
            None => return i,
        }
    }
    writes.len()
}

/// The size of the write at a position.
fn size_at<W: Measured>(writes: &[W], at: usize) -> u64
    requires { at < length writes.now }
    ensures { result ≡ get_or (map W.size writes.now) at 0 }
{
    writes[at].size()
}

/// How many writes from the front may go out together: the longest front that fits, of writes whose sizes in
/// bytes are given. The only error is `Err(0)`, exactly where that front is empty: where the first write is
/// over a limit by itself, or no write may go out at all.
pub fn split(sizes: &[u64], limits: &Limits) -> Result<usize, usize>
    requires { 0 < length sizes.now }
    ensures front { IfOk result (λ len. IsLongestFront (Fits limits.now) sizes.now len) }
    ensures some { IfOk result (λ len. 0 < len) }
    ensures empty { IfErr result (λ len. IsLongestFront (Fits limits.now) sizes.now len) }
    ensures zero { IfErr result (λ len. len ≡ 0) }
{
    match longest_front(sizes, limits) {
        0 => Err(0),
        len => Ok(len),
    }
}

/// The bytes of a front together with those of the next write, where the two may go out together. The front
/// has `items` writes of `total` bytes together, the next write `size` bytes.
fn with_next(total: u64, items: u64, size: u64, limits: &Limits) -> Option<u64>
    ensures sum { IfSome result (λ sum. sum ≡ total + size) }
    ensures fits { IfSome result
        (λ sum. (items < limits.now.items) × (size ≤ limits.now.each) × (sum ≤ limits.now.bytes)) }
    ensures none { IfNone result
        (items < limits.now.items → size ≤ limits.now.each → total + size ≤ limits.now.bytes → ⊥) }
{
    let bytes = limits.bytes;
    if items >= limits.items || size > limits.each {
        return None;
    }
    match total.checked_add(size) {
        Some(sum) if sum <= bytes => Some(sum),
        _ => None,
    }
}
