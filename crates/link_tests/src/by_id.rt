//! Tests of values by ids.
use crate::asserting::{Made, alike};
use driver_link::ById;

/// What stands under the ids of sixteen ones, twos and threes.
fn standing(known: &ById<u8>) -> [Option<u8>; 3] {
    [
        known.get(&[1; 16]).copied(),
        known.get(&[2; 16]).copied(),
        known.get(&[3; 16]).copied(),
    ]
}

#[test]
fn a_value_takes_the_place_of_another(rt: HostRuntime) {
    let mut known = ById::new(rt.alloc());
    let first = known.insert([1; 16], 10).made(&rt);
    let second = known.insert([2; 16], 20).made(&rt);
    let third = known.insert([1; 16], 11).made(&rt);
    let stand = standing(&known);
    let count = known.len();
    drop(known);
    alike(
        &rt,
        [first, second, third],
        [None, None, Some(10)],
        "values that three inserts replaced",
    );
    alike(
        &rt,
        stand,
        [Some(11), Some(20), None],
        "what stands behind three inserts",
    );
    alike(&rt, count, 2, "how many values stand behind three inserts");
}

#[test]
fn a_removed_value_is_gone(rt: HostRuntime) {
    let mut known = ById::new(rt.alloc());
    known.insert([1; 16], 10).made(&rt);
    known.insert([2; 16], 20).made(&rt);
    let removed = [known.remove(&[1; 16]), known.remove(&[1; 16])];
    let stand = standing(&known);
    let count = known.len();
    drop(known);
    alike(&rt, removed, [Some(10), None], "a value removed twice");
    alike(
        &rt,
        stand,
        [None, Some(20), None],
        "what stands behind the removal",
    );
    alike(&rt, count, 1, "how many values stand behind the removal");
}
