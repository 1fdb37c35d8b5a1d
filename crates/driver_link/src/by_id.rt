//! Values found by a session's id, seen as a finite map.
ghost use Rattle.std.specs.Prelude.{◌≡◌, None, IfSome, IfNone, IfOk, OnOk, OnErr};
ghost use Rattle.std.specs.Option.{option_copied};
ghost use Rattle.std.specs.FinMap as map;

use std::alloc::{AllocError, Global};
use std::collections::HashMap;
use std::marker::Model;

/// A `HashMap` from session ids to values, seen as a finite map.
#[derive(Debug)]
pub struct ById<T> {
    entries: HashMap<[u8; 16], T>,
}

impl<T: Drop> Drop for ById<T> {
    fn drop(self) {
        let ById { entries } = self;
        drop(entries);
    }
}

impl<T> Model for ById<T> {
    ghost use Rattle.std.specs.FinMap as map;
    ghost use Rattle.std.specs.Ordering.{nat_cmp};
    ghost use Rattle.std.specs.Cmp.Lexicographic.{slice_cmp};
    ghost use Rattle.std.specs.Coded.{coded_list, coded_ℕ};

    ghost Value = { map.FinMap (slice_cmp nat_cmp) T };

    ghost coded = { map.code (coded_list coded_ℕ) T.code };

    ghost view = { λ known. map.from_entries known.entries.entries };
}

impl<T> ById<T> {
    /// No value. It takes no memory.
    pub fn new(alloc: Global) -> ById<T>
        ensures { result ≡ map.empty }
    {
        ById {
            entries: HashMap::new(alloc),
        }
    }

    /// The value at an id.
    pub fn get(&self, id: &[u8; 16]) -> Option<&T>
        ensures { option_copied result ≡ map.get self.now id.now }
    {
        self.entries.get(id)
    }

    /// How many ids have a value.
    pub fn len(&self) -> usize
        ensures { result ≡ map.len self.now }
    {
        self.entries.len()
    }
}

impl<T: Drop> ById<T> {
    /// Puts a value at an id, and answers the one that stood there. A refusal leaves the map as it was,
    /// and comes only where there was none.
    pub fn insert(&mut self, id: [u8; 16], value: T) -> Result<Option<T>, AllocError>
        ensures ok { OnOk result (self.new ≡ map.insert self.old id value) }
        ensures stood { IfOk result (λ stood. stood ≡ map.get self.old id) }
        ensures err { OnErr result (self.new ≡ self.old) }
        ensures absent { OnErr result (map.get self.old id ≡ None) }
    {
        match self.entries.insert(id, value) {
            Ok(stood) => Ok(stood),
            Err(_) => Err(AllocError),
        }
    }

    /// Takes the value at an id out, where there is one.
    pub fn remove(&mut self, id: &[u8; 16]) -> Option<T>
        ensures removed { self.new ≡ map.remove self.old id.now }
        ensures stood { result ≡ map.get self.old id.now }
    {
        self.entries.remove(id)
    }
}
