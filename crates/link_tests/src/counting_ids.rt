//! Tests of ids that count.
use crate::asserting::alike;
use driver_link::IdSource;
use memory_links::CountingIds;

/// The greatest number in twelve bytes.
const GREATEST_OBJECT: u128 = 0xffff_ffff_ffff_ffff_ffff_ffff;

#[test]
fn ids_count_from_one(rt: HostRuntime) {
    let mut ids = CountingIds::new();
    let sessions = [ids.session_id(), ids.session_id()];
    let object = ids.object_id();
    let mut ids = CountingIds::after(0x1_0002, GREATEST_OBJECT - 1);
    let later = ids.session_id();
    let last = [ids.object_id(), ids.object_id()];
    alike(
        &rt,
        sessions,
        [
            [0, 0, 0, 0, 0, 0, 0, 0, 0, 0, 0, 0, 0, 0, 0, 1],
            [0, 0, 0, 0, 0, 0, 0, 0, 0, 0, 0, 0, 0, 0, 0, 2],
        ],
        "the first two ids of sessions",
    );
    alike(
        &rt,
        object,
        [0, 0, 0, 0, 0, 0, 0, 0, 0, 0, 0, 1],
        "the first id of an object",
    );
    alike(
        &rt,
        later,
        [0, 0, 0, 0, 0, 0, 0, 0, 0, 0, 0, 0, 0, 1, 0, 3],
        "a later id of a session",
    );
    alike(
        &rt,
        last,
        [[255; 12], [0, 0, 0, 0, 0, 0, 0, 0, 0, 0, 0, 1]],
        "the greatest id of an object and the next",
    );
}
