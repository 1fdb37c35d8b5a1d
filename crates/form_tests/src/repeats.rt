//! Scripts in which a key comes twice, of which the later counts, and numbers at the edges of 64 bits.
use crate::asserting::alike;
use crate::schedules::is_told;
use std::alloc::Global;
use std::process::Abort;

const SCRIPTS: [&str; 9] = [
    "{\"calls\":5,\"calls\":[]}",
    "{\"late\":{\"x\":{\"y\":null}},\"calls\":[],\"late\":[]}",
    "{\"calls\":[{\"deleteOne\":1,\"deleteOne\":{\"ns\":\"a.b\",\"filter\":[]}}]}",
    "{\"calls\":[{\"deleteOne\":[],\"deleteOne\":null,\"deleteOne\":{\"ns\":\"a.b\",\"filter\":[]}}]}",
    "{\"calls\":[{\"deleteOne\":{\"ns\":7,\"filter\":[],\"ns\":\"a.b\"}}]}",
    "{\"calls\":[{\"deleteOne\":{\"ns\":\"a.b\",\"filter\":[[\"x\",{\"int64\":\"1\",\"int64\":1}]]}}]}",
    "{\"calls\":[],\"schedule\":[{\"serve\":1,\"serve\":{}}]}",
    "{\"calls\":[{\"deleteOne\":{\"ns\":\"a.b\",\"filter\":[[\"x\",-9223372036854775808]]}}]}",
    "{\"calls\":[{\"deleteOne\":{\"ns\":\"a.b\",\"filter\":[[\"x\",9223372036854775807]]}}]}",
];

const NO_SCRIPTS: [&str; 12] = [
    "{\"calls\":[],\"calls\":5}",
    "{\"calls\":[],\"calls\":null}",
    "{\"calls\":1e999,\"calls\":[]}",
    "{\"calls\":[1,],\"calls\":[]}",
    "{\"calls\":[],\"x\":1,\"calls\":[]}",
    "{\"calls\":[{\"deleteOne\":{\"ns\":\"a.b\",\"filter\":[]},\"deleteOne\":1}]}",
    "{\"calls\":[{\"deleteOne\":{\"ns\":\"a.b\",\"filter\":[]},\"deleteMany\":{\"ns\":\"a.b\",\"filter\":[]}}]}",
    "{\"calls\":[{\"deleteOne\":1,\"deleteMany\":1,\"deleteOne\":{\"ns\":\"a.b\",\"filter\":[]}}]}",
    "{\"calls\":[{\"deleteOne\":{\"ns\":\"a.b\",\"filter\":[[\"x\",-0]]}}]}",
    "{\"calls\":[{\"deleteOne\":{\"ns\":\"a.b\",\"filter\":[[\"x\",-9223372036854775809]]}}]}",
    "{\"calls\":[{\"deleteOne\":{\"ns\":\"a.b\",\"filter\":[[\"x\",9223372036854775808]]}}]}",
    "{\"calls\":[{\"deleteOne\":{\"ns\":\"a.b\",\"filter\":[[\"x\",1.0]]}}]}",
];

/// The first of these scripts that is not read or refused as it should be.
fn first_wrong(
    rt: &impl Abort,
    alloc: Global,
    scripts: &[&'static str],
    read: bool,
) -> Option<&'static str> {
    for script in scripts {
        if !is_told(rt, alloc, script, read) {
            return Some(*script);
        }
    }
    None
}

#[test]
fn the_later_of_two_keys_counts(rt: HostRuntime) {
    let wrong = first_wrong(&rt, rt.alloc(), &SCRIPTS, true);
    alike(&rt, wrong, None, "a script that is not read");
}

#[test]
fn what_the_later_key_makes_no_script_is_refused(rt: HostRuntime) {
    let wrong = first_wrong(&rt, rt.alloc(), &NO_SCRIPTS, false);
    alike(&rt, wrong, None, "no script, and not refused as it must be");
}
