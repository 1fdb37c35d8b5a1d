//! Which calls, options, limits and served steps a script may have.
use crate::asserting::{Made, alike};
use crate::schedules::is_told;
use std::alloc::Global;
use std::process::Abort;

const CALLS: [&str; 32] = [
    "{\"insertOne\":{\"doc\":[],\"ns\":\"a.b\"}}",
    "{\"insertOne\":{\"ns\":\"a.b\",\"doc\":[],\"writeConcern\":{},\"comment\":{\"array\":[null]}}}",
    "{\"updateOne\":{\"ns\":\"a.b\",\"filter\":[],\"update\":[]}}",
    "{\"updateOne\":{\"ns\":\"a.b\",\"filter\":[],\"update\":[],\"upsert\":true,\"writeConcern\":{\"w\":1},\"comment\":null}}",
    "{\"updateOne\":{\"ns\":\"a.b\",\"filter\":[],\"update\":{\"pipeline\":[]},\"upsert\":false}}",
    "{\"updateMany\":{\"ns\":\"a.b\",\"filter\":[],\"update\":{\"pipeline\":[[],[[\"$unset\",\"x\"]]]},\"upsert\":true}}",
    "{\"replaceOne\":{\"ns\":\"a.b\",\"filter\":[],\"doc\":[]}}",
    "{\"replaceOne\":{\"ns\":\"a.b\",\"filter\":[],\"doc\":[],\"upsert\":true,\"comment\":1,\"writeConcern\":{}}}",
    "{\"deleteOne\":{\"ns\":[\"a\",\"b\"],\"filter\":[]}}",
    "{\"deleteOne\":{\"ns\":\"a.b\",\"filter\":[],\"comment\":null,\"writeConcern\":{}}}",
    "{\"deleteMany\":{\"ns\":\"a.b\",\"filter\":[[\"x\",{\"oid\":\"000000000000000000000001\"}]]}}",
    "{\"deleteMany\":{\"ns\":\"a.b\",\"filter\":[],\"writeConcern\":{\"w\":0,\"wtimeout\":0,\"j\":false}}}",
    "{\"deleteOne\":{\"ns\":\"a.b\",\"filter\":[],\"writeConcern\":{\"w\":4294967295}}}",
    "{\"deleteOne\":{\"ns\":\"a.b\",\"filter\":[],\"writeConcern\":{\"w\":\"majority\"}}}",
    "{\"deleteOne\":{\"ns\":\"a.b\",\"filter\":[],\"writeConcern\":{\"w\":\"\"}}}",
    "{\"deleteOne\":{\"ns\":\"a.b\",\"filter\":[],\"writeConcern\":{\"w\":\"3\"}}}",
    "{\"deleteOne\":{\"ns\":\"a.b\",\"filter\":[],\"writeConcern\":{\"wtimeout\":4294967295}}}",
    "{\"deleteOne\":{\"ns\":\"a.b\",\"filter\":[],\"writeConcern\":{\"j\":true}}}",
    "{\"deleteOne\":{\"ns\":\"a.b\",\"filter\":[],\"comment\":false}}",
    "{\"deleteOne\":{\"ns\":\"a.b\",\"filter\":[],\"comment\":{\"doc\":[]}}}",
    "{\"findOneAndDelete\":{\"ns\":\"a.b\",\"filter\":[]}}",
    "{\"findOneAndDelete\":{\"comment\":null,\"writeConcern\":{},\"filter\":[],\"ns\":[\"a\",\"b\"]}}",
    "{\"findOneAndUpdate\":{\"ns\":\"a.b\",\"filter\":[],\"update\":[]}}",
    "{\"findOneAndUpdate\":{\"ns\":\"a.b\",\"filter\":[],\"update\":{\"pipeline\":[[]]},\"writeConcern\":{\"w\":1}}}",
    "{\"findOneAndUpdate\":{\"ns\":\"a.b\",\"filter\":[],\"update\":[[\"$set\",1]],\"comment\":\"x\"}}",
    "{\"findOneAndReplace\":{\"ns\":\"a.b\",\"filter\":[],\"doc\":[]}}",
    "{\"findOneAndReplace\":{\"ns\":\"a.b\",\"filter\":[],\"doc\":[[\"x\",1]],\"comment\":{\"array\":[]}}}",
    "{\"findOneAndReplace\":{\"ns\":\"a.b\",\"filter\":[],\"doc\":[],\"writeConcern\":{\"w\":\"majority\",\"wtimeout\":1,\"j\":true}}}",
    "{\"insertMany\":{\"ns\":\"a.b\",\"docs\":[]}}",
    "{\"insertMany\":{\"ns\":\"a.b\",\"docs\":[[]]}}",
    "{\"insertMany\":{\"docs\":[[[\"x\",1]],[],[[\"_id\",{\"doc\":[]}]]],\"ns\":[\"a\",\"b\"],\"ordered\":true}}",
    "{\"insertMany\":{\"ns\":\"a.b\",\"docs\":[[],[]],\"ordered\":false,\"writeConcern\":{\"w\":\"majority\"},\"comment\":null}}",
];

/// Texts that are no calls, by their names, and writes that answer a document which are none.
const NO_FINDS: [&str; 26] = [
    "{}",
    "[]",
    "\"deleteOne\"",
    "{\"DeleteOne\":{\"ns\":\"a.b\",\"filter\":[]}}",
    "{\"findAndModify\":{\"ns\":\"a.b\",\"filter\":[]}}",
    "{\"findOneAndDelete\":{\"ns\":\"a.b\"}}",
    "{\"findOneAndDelete\":{\"filter\":[]}}",
    "{\"findOneAndDelete\":{\"ns\":\"a.b\",\"filter\":[],\"upsert\":true}}",
    "{\"findOneAndDelete\":{\"ns\":\"a.b\",\"filter\":[],\"update\":[]}}",
    "{\"findOneAndDelete\":{\"ns\":\"a.b\",\"filter\":[],\"sort\":[]}}",
    "{\"findOneAndUpdate\":{\"ns\":\"a.b\",\"filter\":[]}}",
    "{\"findOneAndUpdate\":{\"ns\":\"a.b\",\"update\":[]}}",
    "{\"findOneAndUpdate\":{\"filter\":[],\"update\":[]}}",
    "{\"findOneAndUpdate\":{\"ns\":\"a.b\",\"filter\":[],\"update\":[],\"writeConcern\":1}}",
    "{\"findOneAndUpdate\":{\"ns\":\"a.b\",\"filter\":[],\"update\":[],\"upsert\":true}}",
    "{\"findOneAndUpdate\":{\"ns\":\"a.b\",\"filter\":[],\"update\":[],\"returnDocument\":\"after\"}}",
    "{\"findOneAndUpdate\":{\"ns\":\"a.b\",\"filter\":[],\"doc\":[]}}",
    "{\"findOneAndUpdate\":{\"ns\":\"a.b\",\"filter\":[],\"update\":{}}}",
    "{\"findOneAndReplace\":{\"ns\":\"a.b\",\"filter\":[]}}",
    "{\"findOneAndReplace\":{\"ns\":\"a.b\",\"doc\":[]}}",
    "{\"findOneAndReplace\":{\"filter\":[],\"doc\":[]}}",
    "{\"findOneAndReplace\":{\"ns\":\"a.b\",\"filter\":[],\"doc\":[],\"comment\":[]}}",
    "{\"findOneAndReplace\":{\"ns\":\"a.b\",\"filter\":[],\"update\":[]}}",
    "{\"findOneAndReplace\":{\"ns\":\"a.b\",\"filter\":[],\"doc\":[],\"upsert\":false}}",
    "{\"findOneAndReplace\":{\"ns\":\"a.b\",\"filter\":[],\"doc\":{\"pipeline\":[]}}}",
    "{\"findOneAndReplace\":{\"ns\":\"ab\",\"filter\":[],\"doc\":[]}}",
];

/// Inserts of many documents that are none.
const NO_INSERTS_OF_MANY: [&str; 21] = [
    "{\"insertMany\":[]}",
    "{\"insertMany\":{}}",
    "{\"insertMany\":{\"ns\":\"a.b\"}}",
    "{\"insertMany\":{\"docs\":[[]]}}",
    "{\"insertMany\":{\"ns\":\"ab\",\"docs\":[[]]}}",
    "{\"insertMany\":{\"ns\":\"a.b\",\"docs\":{}}}",
    "{\"insertMany\":{\"ns\":\"a.b\",\"docs\":null}}",
    "{\"insertMany\":{\"ns\":\"a.b\",\"docs\":\"x\"}}",
    "{\"insertMany\":{\"ns\":\"a.b\",\"docs\":[[\"x\",1]]}}",
    "{\"insertMany\":{\"ns\":\"a.b\",\"docs\":[[[\"x\",1]],{}]}}",
    "{\"insertMany\":{\"ns\":\"a.b\",\"docs\":[[[\"x\",1]],[[\"x\",1,2]]]}}",
    "{\"insertMany\":{\"ns\":\"a.b\",\"docs\":[[],null]}}",
    "{\"insertMany\":{\"ns\":\"a.b\",\"doc\":[]}}",
    "{\"insertMany\":{\"ns\":\"a.b\",\"docs\":[[]],\"doc\":[]}}",
    "{\"insertMany\":{\"ns\":\"a.b\",\"docs\":[[]],\"upsert\":true}}",
    "{\"insertMany\":{\"ns\":\"a.b\",\"docs\":[[]],\"ordered\":1}}",
    "{\"insertMany\":{\"ns\":\"a.b\",\"docs\":[[]],\"ordered\":\"false\"}}",
    "{\"insertMany\":{\"ns\":\"a.b\",\"docs\":[[]],\"ordered\":null}}",
    "{\"insertMany\":{\"ns\":\"a.b\",\"docs\":[[]],\"writeConcern\":1}}",
    "{\"insertMany\":{\"ns\":\"a.b\",\"docs\":[[]],\"comment\":[]}}",
    "{\"InsertMany\":{\"ns\":\"a.b\",\"docs\":[[]]}}",
];

/// Deletes and single inserts that are none, by their parts, comments and write concerns, and two calls in one.
const NO_DELETES: [&str; 30] = [
    "{\"deleteOne\":{\"ns\":\"a.b\",\"filter\":[]},\"deleteMany\":{\"ns\":\"a.b\",\"filter\":[]}}",
    "{\"deleteOne\":[]}",
    "{\"deleteOne\":{}}",
    "{\"deleteOne\":{\"ns\":\"a.b\"}}",
    "{\"deleteOne\":{\"filter\":[]}}",
    "{\"deleteOne\":{\"ns\":\"a.b\",\"filter\":{}}}",
    "{\"deleteOne\":{\"ns\":\"a.b\",\"filter\":null}}",
    "{\"deleteOne\":{\"ns\":\"a.b\",\"filter\":[],\"upsert\":true}}",
    "{\"deleteOne\":{\"ns\":\"a.b\",\"filter\":[],\"session\":1}}",
    "{\"deleteOne\":{\"ns\":\"a.b\",\"filter\":[],\"hint\":\"x\"}}",
    "{\"deleteMany\":{\"ns\":\"a.b\"}}",
    "{\"deleteMany\":{\"ns\":\"a.b\",\"filter\":[],\"upsert\":false}}",
    "{\"deleteMany\":{\"ns\":\"a.b\",\"filter\":[],\"update\":[]}}",
    "{\"insertOne\":{\"ns\":\"a.b\"}}",
    "{\"insertOne\":{\"doc\":[]}}",
    "{\"insertOne\":{\"ns\":\"a.b\",\"doc\":[],\"upsert\":true}}",
    "{\"insertOne\":{\"ns\":\"a.b\",\"doc\":[],\"filter\":[]}}",
    "{\"insertOne\":{\"ns\":\"a.b\",\"doc\":[],\"ordered\":true}}",
    "{\"deleteOne\":{\"ns\":\"a.b\",\"filter\":[],\"comment\":[]}}",
    "{\"deleteOne\":{\"ns\":\"a.b\",\"filter\":[],\"comment\":1.5}}",
    "{\"deleteOne\":{\"ns\":\"a.b\",\"filter\":[],\"writeConcern\":null}}",
    "{\"deleteOne\":{\"ns\":\"a.b\",\"filter\":[],\"writeConcern\":1}}",
    "{\"deleteOne\":{\"ns\":\"a.b\",\"filter\":[],\"writeConcern\":{\"w\":-1}}}",
    "{\"deleteOne\":{\"ns\":\"a.b\",\"filter\":[],\"writeConcern\":{\"w\":4294967296}}}",
    "{\"deleteOne\":{\"ns\":\"a.b\",\"filter\":[],\"writeConcern\":{\"w\":1.0}}}",
    "{\"deleteOne\":{\"ns\":\"a.b\",\"filter\":[],\"writeConcern\":{\"w\":null}}}",
    "{\"deleteOne\":{\"ns\":\"a.b\",\"filter\":[],\"writeConcern\":{\"wtimeout\":4294967296}}}",
    "{\"deleteOne\":{\"ns\":\"a.b\",\"filter\":[],\"writeConcern\":{\"wtimeout\":\"1\"}}}",
    "{\"deleteOne\":{\"ns\":\"a.b\",\"filter\":[],\"writeConcern\":{\"j\":1}}}",
    "{\"deleteOne\":{\"ns\":\"a.b\",\"filter\":[],\"writeConcern\":{\"journal\":true}}}",
];

/// Updates and replacements that are none.
const NO_UPDATES: [&str; 19] = [
    "{\"updateOne\":{\"ns\":\"a.b\",\"filter\":[]}}",
    "{\"updateOne\":{\"ns\":\"a.b\",\"update\":[]}}",
    "{\"updateOne\":{\"filter\":[],\"update\":[]}}",
    "{\"updateOne\":{\"ns\":\"a.b\",\"filter\":[],\"doc\":[]}}",
    "{\"updateOne\":{\"ns\":\"a.b\",\"filter\":[],\"update\":null}}",
    "{\"updateOne\":{\"ns\":\"a.b\",\"filter\":[],\"update\":{}}}",
    "{\"updateOne\":{\"ns\":\"a.b\",\"filter\":[],\"update\":{\"pipeline\":{}}}}",
    "{\"updateOne\":{\"ns\":\"a.b\",\"filter\":[],\"update\":{\"pipeline\":[{}]}}}",
    "{\"updateOne\":{\"ns\":\"a.b\",\"filter\":[],\"update\":{\"pipeline\":[],\"more\":1}}}",
    "{\"updateOne\":{\"ns\":\"a.b\",\"filter\":[],\"update\":{\"doc\":[]}}}",
    "{\"updateOne\":{\"ns\":\"a.b\",\"filter\":[],\"update\":[],\"upsert\":null}}",
    "{\"updateOne\":{\"ns\":\"a.b\",\"filter\":[],\"update\":[],\"upsert\":1}}",
    "{\"updateMany\":{\"ns\":\"a.b\",\"filter\":[],\"update\":[],\"doc\":[]}}",
    "{\"updateMany\":{\"ns\":\"a.b\",\"filter\":[],\"update\":[],\"multi\":true}}",
    "{\"updateMany\":{\"ns\":\"ab\",\"filter\":[],\"update\":[]}}",
    "{\"replaceOne\":{\"ns\":\"a.b\",\"filter\":[]}}",
    "{\"replaceOne\":{\"ns\":\"a.b\",\"filter\":[],\"update\":[]}}",
    "{\"replaceOne\":{\"ns\":\"a.b\",\"filter\":[],\"doc\":{\"pipeline\":[]}}}",
    "{\"replaceOne\":{\"ns\":\"a.b\",\"filter\":[],\"doc\":[],\"upsert\":\"true\"}}",
];

const OPTIONS: [&str; 9] = [
    "{}",
    "{\"retryWrites\":true}",
    "{\"retryWrites\":false}",
    "{\"writeConcern\":{}}",
    "{\"writeConcern\":{\"w\":\"majority\",\"j\":true,\"wtimeout\":1}}",
    "{\"readConcern\":\"majority\"}",
    "{\"readConcern\":\"snapshot\"}",
    "{\"readConcern\":\"any\"}",
    "{\"readConcern\":\"local\",\"writeConcern\":{\"w\":1},\"retryWrites\":true}",
];

const NO_OPTIONS: [&str; 12] = [
    "null",
    "[]",
    "\"retryWrites\"",
    "{\"retryWrites\":null}",
    "{\"retryWrites\":1}",
    "{\"writeConcern\":\"majority\"}",
    "{\"writeConcern\":{\"w\":true}}",
    "{\"readConcern\":{\"level\":\"local\"}}",
    "{\"readConcern\":null}",
    "{\"readPreference\":\"primary\"}",
    "{\"RetryWrites\":true}",
    "{\"clientNumber\":1}",
];

const LIMITS: [&str; 8] = [
    "{}",
    "{\"wire\":24}",
    "{\"wire\":2147483647,\"bson\":28}",
    "{\"bson\":28}",
    "{\"message\":0}",
    "{\"batch\":-1}",
    "{\"batch\":9223372036854775807,\"message\":48000000,\"bson\":16777216}",
    "{\"bson\":-9223372036854775808}",
];

const NO_LIMITS: [&str; 17] = [
    "null",
    "[]",
    "28",
    "{\"Bson\":28}",
    "{\"bson\":28,\"documents\":28}",
    "{\"bson\":null}",
    "{\"message\":\"28\"}",
    "{\"batch\":true}",
    "{\"batch\":[28]}",
    "{\"bson\":9223372036854775808}",
    "{\"message\":18446744073709551616}",
    "{\"batch\":-9223372036854775809}",
    "{\"bson\":28.0}",
    "{\"message\":1e3}",
    "{\"wire\":null}",
    "{\"wire\":2147483648}",
    "{\"wire\":-2147483649}",
];

const SERVED: [&str; 16] = [
    "{}",
    "{\"results\":[]}",
    "{\"results\":[{}]}",
    "{\"results\":[{\"n\":0},{\"modified\":0}]}",
    "{\"results\":[{\"n\":4294967295,\"modified\":4294967295}]}",
    "{\"results\":[{\"upserted\":null}]}",
    "{\"results\":[{\"upserted\":{\"doc\":[[\"a\",{\"array\":[1]}]]},\"value\":[]}]}",
    "{\"results\":[{\"value\":[[\"a\",\"b\\u0000\"]]}]}",
    "{\"fail\":[]}",
    "{\"fail\":[[0,11000],[0,1],[18446744073709551615,-2147483648]]}",
    "{\"fail\":[[7,2147483647]]}",
    "{\"writeConcernError\":{\"code\":64,\"message\":\"\"}}",
    "{\"writeConcernError\":{\"message\":\"x\",\"code\":390}}",
    "{\"page\":0}",
    "{\"page\":18446744073709551615,\"results\":[{}]}",
    "{\"fail\":[[0,392]],\"results\":[{\"n\":1}],\"writeConcernError\":{\"code\":1,\"message\":\"x\"}}",
];

const NOT_SERVED: [&str; 44] = [
    "null",
    "[]",
    "\"serve\"",
    "{\"page\":-1}",
    "{\"page\":1.5}",
    "{\"page\":\"1\"}",
    "{\"page\":null}",
    "{\"results\":null}",
    "{\"results\":{}}",
    "{\"results\":[1]}",
    "{\"results\":[[]]}",
    "{\"results\":[{\"more\":1}]}",
    "{\"results\":[{\"n\":-1}]}",
    "{\"results\":[{\"n\":4294967296}]}",
    "{\"results\":[{\"n\":1.0}]}",
    "{\"results\":[{\"n\":null}]}",
    "{\"results\":[{\"modified\":-1}]}",
    "{\"results\":[{\"modified\":4294967296}]}",
    "{\"results\":[{\"modified\":\"1\"}]}",
    "{\"results\":[{\"upserted\":[]}]}",
    "{\"results\":[{\"upserted\":1.5}]}",
    "{\"results\":[{\"upserted\":{\"doc\":[[\"a\\u0000\",1]]}}]}",
    "{\"results\":[{\"upserted\":{\"array\":[{\"doc\":[[\"\\u0000\",1]]}]}}]}",
    "{\"results\":[{\"value\":null}]}",
    "{\"results\":[{\"value\":{}}]}",
    "{\"results\":[{\"value\":{\"doc\":[]}}]}",
    "{\"results\":[{\"value\":[[\"a\\u0000b\",1]]}]}",
    "{\"results\":[{},{\"value\":[[\"a\",{\"doc\":[[\"\\u0000\",1]]}]]}]}",
    "{\"fail\":null}",
    "{\"fail\":[0,1]}",
    "{\"fail\":[[]]}",
    "{\"fail\":[[0]]}",
    "{\"fail\":[[0,1,2]]}",
    "{\"fail\":[[-1,1]]}",
    "{\"fail\":[[0,2147483648]]}",
    "{\"fail\":[[0,\"1\"]]}",
    "{\"fail\":[[0,1],[1,391]]}",
    "{\"fail\":[{\"at\":0,\"code\":1}]}",
    "{\"writeConcernError\":null}",
    "{\"writeConcernError\":{\"code\":64}}",
    "{\"writeConcernError\":{\"message\":\"x\"}}",
    "{\"writeConcernError\":{\"code\":64,\"message\":\"x\",\"more\":1}}",
    "{\"writeConcernError\":{\"code\":64,\"message\":1}}",
    "{\"writeConcernError\":{\"code\":391,\"message\":\"x\"}}",
];

/// What stands around a form in its script.
pub(crate) struct Around {
    pub before: &'static str,
    pub behind: &'static str,
}

/// Whether the script of a form is read, or refused as a whole, as it should be.
fn is_right(rt: &impl Abort, alloc: Global, form: &str, around: &Around, read: bool) -> bool {
    let mut script = String::new(alloc);
    script.push_str(around.before).made(rt);
    script.push_str(form).made(rt);
    script.push_str(around.behind).made(rt);
    is_told(rt, alloc, script.as_str(), read)
}

/// The first form whose script is not read or refused as it should be.
pub(crate) fn first_wrong(
    rt: &impl Abort,
    alloc: Global,
    forms: &[&'static str],
    around: &Around,
    read: bool,
) -> Option<&'static str> {
    for form in forms {
        if !is_right(rt, alloc, form, around, read) {
            return Some(*form);
        }
    }
    None
}

/// A script of one call, of options or limits alone, and of one served step.
pub(crate) const AROUND_CALL: Around = Around {
    before: "{\"calls\":[",
    behind: "]}",
};

const AROUND_OPTIONS: Around = Around {
    before: "{\"calls\":[],\"options\":",
    behind: "}",
};

const AROUND_LIMITS: Around = Around {
    before: "{\"limits\":",
    behind: ",\"calls\":[]}",
};

const AROUND_SERVED: Around = Around {
    before: "{\"calls\":[],\"schedule\":[{\"serve\":",
    behind: "}]}",
};

#[test]
fn calls_are_read(rt: HostRuntime) {
    let wrong = first_wrong(&rt, rt.alloc(), &CALLS, &AROUND_CALL, true);
    alike(&rt, wrong, None, "a call that is not read");
}

#[test]
fn other_calls_are_refused(rt: HostRuntime) {
    let wrong = first_wrong(&rt, rt.alloc(), &NO_FINDS, &AROUND_CALL, false);
    alike(&rt, wrong, None, "no call, and not refused as it must be");
    let wrong = first_wrong(&rt, rt.alloc(), &NO_INSERTS_OF_MANY, &AROUND_CALL, false);
    alike(
        &rt,
        wrong,
        None,
        "no insert of many, and not refused as it must be",
    );
    let wrong = first_wrong(&rt, rt.alloc(), &NO_DELETES, &AROUND_CALL, false);
    alike(&rt, wrong, None, "no delete, and not refused as it must be");
    let wrong = first_wrong(&rt, rt.alloc(), &NO_UPDATES, &AROUND_CALL, false);
    alike(&rt, wrong, None, "no update, and not refused as it must be");
}

#[test]
fn options_are_read(rt: HostRuntime) {
    let wrong = first_wrong(&rt, rt.alloc(), &OPTIONS, &AROUND_OPTIONS, true);
    alike(&rt, wrong, None, "options that are not read");
}

#[test]
fn other_options_are_refused(rt: HostRuntime) {
    let wrong = first_wrong(&rt, rt.alloc(), &NO_OPTIONS, &AROUND_OPTIONS, false);
    alike(
        &rt,
        wrong,
        None,
        "no options, and not refused as it must be",
    );
}

#[test]
fn limits_are_read(rt: HostRuntime) {
    let wrong = first_wrong(&rt, rt.alloc(), &LIMITS, &AROUND_LIMITS, true);
    alike(&rt, wrong, None, "limits that are not read");
}

#[test]
fn other_limits_are_refused(rt: HostRuntime) {
    let wrong = first_wrong(&rt, rt.alloc(), &NO_LIMITS, &AROUND_LIMITS, false);
    alike(&rt, wrong, None, "no limits, and not refused as it must be");
}

#[test]
fn served_steps_are_read(rt: HostRuntime) {
    let wrong = first_wrong(&rt, rt.alloc(), &SERVED, &AROUND_SERVED, true);
    alike(&rt, wrong, None, "a served step that is not read");
}

#[test]
fn other_served_steps_are_refused(rt: HostRuntime) {
    let wrong = first_wrong(&rt, rt.alloc(), &NOT_SERVED, &AROUND_SERVED, false);
    alike(
        &rt,
        wrong,
        None,
        "no served step, and not refused as it must be",
    );
}
