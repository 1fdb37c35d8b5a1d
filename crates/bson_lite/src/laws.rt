//! The laws of the spelling, of the order of timestamps, and of maps put together.
ghost use Rattle.std.specs.Prelude.{◌≡◌, ℕ, List, Ok};
ghost use Rattle.std.specs.FinMap as finite;
ghost use Rattle.std.specs.Option.{option_or};
ghost use Rattle.std.specs.Ordering.{nat_cmp};
ghost use Rattle.bson_lite.specs.Reading.{read};
ghost use Rattle.bson_lite.specs.Spelling.{HasSpelling, spelling};
ghost use Rattle.bson_lite.specs.declared.bson.Bson.{Bson};
ghost use Rattle.bson_lite.specs.declared.document.Pair.{Pair};
ghost use Rattle.bson_lite.specs.Stamps.{by_time_then_increment};
ghost use Rattle.bson_lite.specs.Unions.{union};

use crate::bson::Timestamp;
use std::cmp::Ordering;

/// What has a spelling is read again from it.
pub fn round_trip()
    ensures { (d : List (Pair Bson)) → HasSpelling d → read (spelling d) ≡ Ok d }
{}

/// Timestamps are ordered by time, and where that is the same by increment.
pub fn order_of_timestamps(a: Timestamp, b: Timestamp) -> Ordering
    ensures { result ≡ by_time_then_increment a b }
{
    a.cmp(&b)
}

/// In two maps put together each index has the later one's value, and where that has none the earlier one's.
pub fn union_by_index<T>()
    ensures { (earlier later : finite.FinMap nat_cmp T) (index : ℕ)
        → finite.get (union earlier later) index
        ≡ option_or (finite.get later index) (finite.get earlier index) }
{}
