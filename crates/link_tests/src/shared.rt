//! Tests of a value with several owners.
use crate::asserting::{Made, holds};
use bson_lite::{Text, TryClone};
use driver_link::Shared;

#[test]
fn a_value_stands_while_it_has_an_owner(rt: HostRuntime) {
    let alloc = rt.alloc();
    let first = Shared::new(alloc, Text::from_str(alloc, "tea").made(&rt)).made(&rt);
    let second = first.try_clone(alloc).made(&rt);
    let third = second.try_clone(alloc).made(&rt);
    let are_one = first.get().as_str() == "tea" && second.get().as_str() == "tea";
    drop(first);
    drop(second);
    let stays = third.get().as_str() == "tea";
    drop(third);
    holds(&rt, are_one, "the value by two of its owners");
    holds(&rt, stays, "the value by its last owner");
}
