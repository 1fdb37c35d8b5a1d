//! The laws of what is read, and of what spells no document.
ghost use Rattle.std.specs.Prelude.{◌≡◌, ◌↔◌, ℕ, List, Ok, Err};
ghost use Rattle.bson_lite.specs.declared.document.Pair.{Pair};
ghost use Rattle.bson_lite.specs.declared.bson.Bson.{Bson};
ghost use Rattle.bson_lite.specs.Reading.{read};
ghost use Rattle.bson_lite.specs.Spelling.{Spells};
ghost use Rattle.bson_reading.specs.FirstBroken.{IsFirstBroken};

/// What is read was spelled so.
pub fn read_is_spelled()
    ensures { (bytes : List ℕ) (d : List (Pair Bson)) → read bytes ≡ Ok d → Spells d bytes }
{}

/// Reading breaks off exactly where the first broken item stands, by the rules of the layout.
pub fn breaks_at_first_broken()
    ensures { (bytes : List ℕ) (offset : ℕ) → (read bytes ≡ Err offset) ↔ IsFirstBroken bytes offset }
{}
