//! Ids that count, for runs that are to repeat exactly.
ghost use Rattle.std.specs.Prelude.{◌≡◌, ◌<◌, ◌+◌, ◌-◌, ◌%◌, ◌^◌, ℕ};
ghost use Rattle.std.specs.Int.{bytes_high_first};
ghost use Rattle.driver_link.specs.Apart.{AllApart, first_ids};
ghost use Rattle.memory_links.specs.CountingIds.{none_drawn, session_at, object_at};

use driver_link::IdSource;
use std::marker::Model;

/// The greatest number in twelve bytes.
const GREATEST_OBJECT: u128 = 0xffff_ffff_ffff_ffff_ffff_ffff;

/// Session ids and object ids that are the numbers 1, 2, 3 and so on. After the greatest number of its
/// width comes 1 again.
#[derive(Debug, Drop)]
pub struct CountingIds {
    sessions: u128,
    objects: u128,
}

impl Model for CountingIds {
    ghost use Rattle.std.specs.Prelude.{◌<◌, ◌-◌, ◌^◌};
    ghost use Rattle.memory_links.specs.CountingIds.{IdsDrawn};

    ghost Value = { IdsDrawn };

    ghost view = { λ ids. record { sessions = ids.sessions; objects = ids.objects } };

    ghost invariant = { λ ids. (ids.sessions < 2 ^ 128 - 1) × (ids.objects < 2 ^ 96 - 1) };
}

impl CountingIds {
    /// The ids from 1 on.
    pub fn new() -> CountingIds
        ensures { result ≡ none_drawn }
    {
        CountingIds {
            sessions: 0,
            objects: 0,
        }
    }

    /// The ids after so many of each kind; after the greatest number comes 1 again.
    pub fn after(sessions: u128, objects: u128) -> CountingIds
        ensures { result ≡ record { sessions = sessions % (2 ^ 128 - 1); objects = objects % (2 ^ 96 - 1) } }
    {
        CountingIds {
            sessions: sessions % u128::MAX,
            objects: objects % GREATEST_OBJECT,
        }
    }
}

impl IdSource for CountingIds {
    ghost use Rattle.memory_links.specs.CountingIds.{counted_ids};

    ghost to_come = { counted_ids };

    fn session_id(&mut self) -> [u8; 16] {
        let number = self.sessions + 1;
        self.sessions = drawn_after(self.sessions, u128::MAX);
        number.to_be_bytes()
    }

    fn object_id(&mut self) -> [u8; 12] {
        let number = self.objects + 1;
        self.objects = drawn_after(self.objects, GREATEST_OBJECT);
        low_bytes(number)
    }
}

/// How many ids were drawn after one more, where the greatest number is followed by 1.
fn drawn_after(drawn: u128, greatest: u128) -> u128
    requires { drawn < greatest }
    ensures { result ≡ (drawn + 1) % greatest }
{
    if drawn + 1 == greatest { 0 } else { drawn + 1 }
}

/// The low twelve bytes of a number, the high byte first.
fn low_bytes(number: u128) -> [u8; 12]
    ensures { result ≡ bytes_high_first 12 number }
{
    let bytes = number.to_be_bytes();
    *bytes.last_chunk::<12>().unwrap()
}

/// The first ids of a fresh source are pairwise different, for every count below 2 to the 64th.
pub fn counting_ids_differ()
    ensures sessions { (count : ℕ) → count < 2 ^ 64 → AllApart (first_ids count (session_at none_drawn)) }
    ensures objects { (count : ℕ) → count < 2 ^ 64 → AllApart (first_ids count (object_at none_drawn)) }
{}
