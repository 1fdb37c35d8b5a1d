//! Numbers and fields of a reply.
ghost use Rattle.std.specs.Prelude.{◌≡◌, ℤ, pos, IfOk, IfSome};
ghost use Rattle.bson_lite.specs.declared.bson.Bson as bson;
ghost use Rattle.driver_link.specs.Numbers.{reply_number, reply_count};

use bson_lite::Bson;
use std::alloc::AllocError;

/// A number as a reply has it.
#[tactic(auto, unfolding(driver_link::specs::Numbers::reply_number))]
pub fn number(n: i64) -> Bson
    ensures { result ≡ reply_number n }
{
    if -(1 << 31) - 1 < n && n < 1 << 31 {
        return Bson::Int32(n as i32);
    }
    Bson::Int64(n)
}

/// A number of 32 bits as a reply has it, where it is one.
#[tactic(auto, unfolding(driver_link::specs::Numbers::reply_number))]
pub fn small(n: i64) -> Option<i32>
    ensures { IfSome result (λ small. reply_number n ≡ bson.Int32 small) }
{
    if -(1 << 31) - 1 < n && n < 1 << 31 {
        return Some(n as i32);
    }
    None
}

/// A count as a reply has it. A count past the greatest i64 has no memory either.
pub fn count(n: usize) -> Result<Bson, AllocError>
    ensures { IfOk result (λ value. value ≡ reply_count n) }
{
    if n < 1 << 63 {
        return Ok(number(n as i64));
    }
    Err(AllocError)
}
