//! Values found by an index, seen as a finite map.
ghost use Rattle.std.specs.Prelude.{◌≡◌, ◌+◌, ◌<◌, ◌≤◌, length, IfOk, IfErr, IsOk, IsTrue, OnOk, OnErr};
ghost use Rattle.std.specs.FinMap as map;
ghost use Rattle.std.specs.Option.{option_copied};
ghost use Rattle.std.specs.Ordering.{nat_cmp};
ghost use Rattle.std.specs.Vec.{vec_capacity, vec_len};
ghost use Rattle.bson_lite.specs.Indexed.{insert_each, IsAt, IsGap, IsRising};
ghost use Rattle.bson_lite.specs.Unions.{union};

use std::alloc::{AllocError, Global};
use std::fmt;
use std::marker::Model;

/// Pairs of an index and a value in the order of their indexes, seen as a finite map.
#[derive(Drop)]
pub struct ByIndex<T> {
    entries: Vec<(usize, T)>,
}

impl<T> Model for ByIndex<T> {
    ghost use Rattle.std.specs.FinMap as map;
    ghost use Rattle.std.specs.Ordering.{nat_cmp};
    ghost use Rattle.std.specs.Coded.{coded_ℕ};
    ghost use Rattle.bson_lite.specs.Indexed.{IsRising};

    ghost Value = { map.FinMap nat_cmp T };

    ghost coded = { map.code coded_ℕ T.code };

    ghost view = { λ indexed. map.from_sorted indexed.entries.items };

    ghost invariant = { λ indexed. IsRising indexed.entries.items };
}

impl<T> ByIndex<T> {
    /// No value. It takes no memory.
    pub fn new(alloc: Global) -> ByIndex<T>
        ensures { result ≡ map.empty }
    {
        ByIndex {
            entries: Vec::new(alloc),
        }
    }

    /// Each index and its value, in the order of the indexes.
    pub fn entries(&self) -> &[(usize, T)]
        ensures { result.now ≡ map.entries self.now }
    {
        self.entries.as_slice()
    }

    /// The value at an index, by a binary search.
    pub fn get(&self, index: usize) -> Option<&T>
        ensures { option_copied result ≡ map.get self.now index }
    {
        match place_of(&self.entries, index) {
            Ok(at) => Some(&self.entries[at].1),
            Err(_) => None,
        }
    }

    /// How many indexes have a value.
    pub fn len(&self) -> usize
        ensures { result ≡ map.len self.now }
    {
        self.entries.len()
    }
}

impl<T: Drop> ByIndex<T> {
    /// Puts a value at an index, in place of the one there. A refusal leaves the map as it was. Where the
    /// index is greater than all that have a value, none of these moves.
    pub fn insert(&mut self, index: usize, value: T) -> Result<(), AllocError>
        ensures ok { OnOk result (self.new ≡ map.insert self.old index value) }
        ensures err { OnErr result (self.new ≡ self.old) }
    {
        put_entry(&mut self.entries, index, value)
    }

    /// Puts each value at its index, in turn. A refusal leaves the map as it was.
    pub fn extend(&mut self, more: Vec<(usize, T)>) -> Result<(), AllocError>
        ensures ok { OnOk result (self.new ≡ insert_each self.old more.items) }
        ensures err { OnErr result (self.new ≡ self.old) }
    {
        self.entries.reserve(more.len())?;
        put_all(&mut self.entries, more);
        Ok(())
    }

    /// Puts each value of another map at its index, in place of the one there. A refusal leaves the map as
    /// it was.
    pub fn unite(&mut self, more: ByIndex<T>) -> Result<(), AllocError>
        ensures ok { OnOk result (self.new ≡ union self.old more) }
        ensures err { OnErr result (self.new ≡ self.old) }
    {
        let ByIndex { entries } = more;
        self.extend(entries)
    }
}

/// Puts the values of two maps into two others, each at its index, in place of the one there. Room is made
/// first, so a refusal leaves both as they were.
fn unite_two<A: Drop, B: Drop>(
    first: &mut ByIndex<A>,
    more_first: ByIndex<A>,
    second: &mut ByIndex<B>,
    more_second: ByIndex<B>,
) -> Result<(), AllocError>
    ensures first { OnOk result (first.new ≡ union first.old more_first) }
    ensures second { OnOk result (second.new ≡ union second.old more_second) }
    ensures first_stays { OnErr result (first.new ≡ first.old) }
    ensures second_stays { OnErr result (second.new ≡ second.old) }
{
    let ByIndex { entries } = more_first;
    first.entries.reserve(entries.len())?;
    second.unite(more_second)?;
    put_all(&mut first.entries, entries);
    Ok(())
}

/// The same of three maps.
pub fn unite_three<A: Drop, B: Drop, C: Drop>(
    first: &mut ByIndex<A>,
    more_first: ByIndex<A>,
    second: &mut ByIndex<B>,
    more_second: ByIndex<B>,
    third: &mut ByIndex<C>,
    more_third: ByIndex<C>,
) -> Result<(), AllocError>
    ensures first { OnOk result (first.new ≡ union first.old more_first) }
    ensures second { OnOk result (second.new ≡ union second.old more_second) }
    ensures third { OnOk result (third.new ≡ union third.old more_third) }
    ensures first_stays { OnErr result (first.new ≡ first.old) }
    ensures second_stays { OnErr result (second.new ≡ second.old) }
    ensures third_stays { OnErr result (third.new ≡ third.old) }
{
    let ByIndex { entries } = more_first;
    first.entries.reserve(entries.len())?;
    unite_two(second, more_second, third, more_third)?;
    put_all(&mut first.entries, entries);
    Ok(())
}

/// The same of four maps.
pub fn unite_four<A: Drop, B: Drop, C: Drop, D: Drop>(
    first: &mut ByIndex<A>,
    more_first: ByIndex<A>,
    second: &mut ByIndex<B>,
    more_second: ByIndex<B>,
    third: &mut ByIndex<C>,
    more_third: ByIndex<C>,
    fourth: &mut ByIndex<D>,
    more_fourth: ByIndex<D>,
) -> Result<(), AllocError>
    ensures first { OnOk result (first.new ≡ union first.old more_first) }
    ensures second { OnOk result (second.new ≡ union second.old more_second) }
    ensures third { OnOk result (third.new ≡ union third.old more_third) }
    ensures fourth { OnOk result (fourth.new ≡ union fourth.old more_fourth) }
    ensures first_stays { OnErr result (first.new ≡ first.old) }
    ensures second_stays { OnErr result (second.new ≡ second.old) }
    ensures third_stays { OnErr result (third.new ≡ third.old) }
    ensures fourth_stays { OnErr result (fourth.new ≡ fourth.old) }
{
    let ByIndex { entries } = more_first;
    first.entries.reserve(entries.len())?;
    unite_three(second, more_second, third, more_third, fourth, more_fourth)?;
    put_all(&mut first.entries, entries);
    Ok(())
}

/// Entries that print as those of a map.
#[derive(Drop)]
struct PrintedEntries<'a, T> {
    entries: &'a [(usize, T)],
}

impl<'a, T: fmt::Debug> fmt::Debug for PrintedEntries<'a, T> {
    fn fmt<W: fmt::Write>(&self, f: &mut fmt::Formatter<W>) -> fmt::Result {
        let mut out = f.debug_map();
        for entry in self.entries {
            out.entry(&entry.0, &entry.1);
        }
        out.finish()
    }
}

impl<T: fmt::Debug + Drop> fmt::Debug for ByIndex<T> {
    fn fmt<W: fmt::Write>(&self, f: &mut fmt::Formatter<W>) -> fmt::Result {
        let entries = PrintedEntries {
            entries: self.entries.as_slice(),
        };
        f.debug_struct("ByIndex")
            .field("entries", &entries)
            .finish()
    }
}

/// Whether an index is greater than those of all entries.
fn is_past<T>(entries: &Vec<(usize, T)>, index: usize) -> bool
    requires { IsRising entries.now.items }
    ensures { IsTrue result → IsGap index entries.now.items (vec_len entries.now) }
{
    match entries.last() {
        None => true,
        Some(last) => last.0 < index,
    }
}

/// Where an index stands among entries, or would stand, by halves.
fn place_among<T>(entries: &Vec<(usize, T)>, index: usize) -> Result<usize, usize>
    requires { IsRising entries.now.items }
    ensures found { IfOk result (IsAt index entries.now.items) }
    ensures absent { IfErr result (IsGap index entries.now.items) }
{
    entries.binary_search_by_key(&index, |entry| entry.0)
}

/// The same, with a first look at the end.
fn place_of<T>(entries: &Vec<(usize, T)>, index: usize) -> Result<usize, usize>
    requires { IsRising entries.now.items }
    ensures found { IfOk result (IsAt index entries.now.items) }
    ensures absent { IfErr result (IsGap index entries.now.items) }
{
    if is_past(entries, index) {
        Err(entries.len())
    } else {
        place_among(entries, index)
    }
}

/// Puts an entry into its place. With room it succeeds.
fn put_entry<T: Drop>(
    entries: &mut Vec<(usize, T)>,
    index: usize,
    value: T,
) -> Result<(), AllocError>
    requires { IsRising entries.old.items }
    ensures ok { OnOk result (entries.new.items ≡ map.put nat_cmp index value entries.old.items) }
    ensures err { OnErr result (entries.new.items ≡ entries.old.items) }
    ensures len { vec_len entries.new ≤ vec_len entries.old + 1 }
    ensures room { vec_capacity entries.old ≤ vec_capacity entries.new }
    ensures succeeds { vec_len entries.old < vec_capacity entries.old → IsOk result }
{
    if is_past(entries, index) {
        return push_entry(entries, index, value);
    }
    match place_among(entries, index) {
        Ok(at) => {
            entries[at] = (index, value);
            Ok(())
        }
        Err(at) => Ok(entries.insert(at, (index, value))?),
    }
}

/// Puts an entry behind all others. With room it succeeds.
fn push_entry<T: Drop>(
    entries: &mut Vec<(usize, T)>,
    index: usize,
    value: T,
) -> Result<(), AllocError>
    requires { IsGap index entries.old.items (vec_len entries.old) }
    ensures ok { OnOk result (entries.new.items ≡ map.put nat_cmp index value entries.old.items) }
    ensures err { OnErr result (entries.new.items ≡ entries.old.items) }
    ensures len { vec_len entries.new ≤ vec_len entries.old + 1 }
    ensures room { vec_capacity entries.old ≤ vec_capacity entries.new }
    ensures succeeds { vec_len entries.old < vec_capacity entries.old → IsOk result }
{
    entries.push((index, value))?;
    Ok(())
}

/// Puts entries for which there is room.
fn put_all<T: Drop>(entries: &mut Vec<(usize, T)>, more: Vec<(usize, T)>)
    requires rises { IsRising entries.old.items }
    requires room { vec_len entries.old + length more.items ≤ vec_capacity entries.old }
    ensures rises { IsRising entries.new.items }
    ensures all { map.from_sorted entries.new.items ≡ insert_each (map.from_sorted entries.old.items)
        more.items }
{
    for (index, value) in more {
        let Ok(_) = put_entry(entries, index, value) else {
            unreachable!()
        };
    }
}
