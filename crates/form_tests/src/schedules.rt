//! Which schedules, faults and late deliveries a script may have, and what is read of them.
use crate::asserting::{Made, alike, holds};
use bson_lite::Text;
use driver_link::{Item, Scheduled};
use driver_script::{Script, ScriptFault, read_script};
use std::alloc::{AllocError, Global};
use std::process::Abort;

/// A step as a script writes it, and what is read: the waiting sends before it, the name of its item, how many
/// statements run first, and the code and labels of its reply.
struct Row {
    text: &'static str,
    deliver: &'static [u64],
    name: &'static str,
    after: u64,
    code: i32,
    labels: &'static [&'static str],
}

/// Steps that are served, lost, late or without a reply.
const SERVED_OR_LOST: [Row; 8] = [
    Row {
        text: "\"serve\"",
        deliver: &[],
        name: "serve",
        after: 0,
        code: 0,
        labels: &[],
    },
    Row {
        text: "{\"serve\":{}}",
        deliver: &[],
        name: "serve",
        after: 0,
        code: 0,
        labels: &[],
    },
    Row {
        text: "{\"deliver\":[1],\"item\":{\"serve\":{\"fail\":[],\"results\":[]}}}",
        deliver: &[1],
        name: "serve",
        after: 0,
        code: 0,
        labels: &[],
    },
    Row {
        text: "\"lost\"",
        deliver: &[],
        name: "lost",
        after: 0,
        code: 0,
        labels: &[],
    },
    Row {
        text: "\"late\"",
        deliver: &[],
        name: "late",
        after: 0,
        code: 0,
        labels: &[],
    },
    Row {
        text: "\"replyLost\"",
        deliver: &[],
        name: "replyLost",
        after: 0,
        code: 0,
        labels: &[],
    },
    Row {
        text: "{\"deliver\":[2,0],\"item\":\"late\"}",
        deliver: &[2, 0],
        name: "late",
        after: 0,
        code: 0,
        labels: &[],
    },
    Row {
        text: "{\"deliver\":[],\"item\":\"serve\"}",
        deliver: &[],
        name: "serve",
        after: 0,
        code: 0,
        labels: &[],
    },
];

/// Steps with a code and labels.
const INTERRUPTED_OR_REFUSED: [Row; 5] = [
    Row {
        text: "{\"interrupted\":{\"after\":1,\"code\":11600,\"labels\":[\"RetryableWriteError\"]}}",
        deliver: &[],
        name: "interrupted",
        after: 1,
        code: 11600,
        labels: &["RetryableWriteError"],
    },
    Row {
        text: "{\"interrupted\":{\"labels\":[],\"code\":-2147483648,\"after\":18446744073709551615}}",
        deliver: &[],
        name: "interrupted",
        after: 18_446_744_073_709_551_615,
        code: -2_147_483_648,
        labels: &[],
    },
    Row {
        text: "{\"refused\":{\"code\":13,\"labels\":[]}}",
        deliver: &[],
        name: "refused",
        after: 0,
        code: 13,
        labels: &[],
    },
    Row {
        text: "{\"refused\":{\"code\":2147483647,\"labels\":[\"NoWritesPerformed\",\"\",\"any\"]}}",
        deliver: &[],
        name: "refused",
        after: 0,
        code: 2_147_483_647,
        labels: &["NoWritesPerformed", "", "any"],
    },
    Row {
        text: "{\"item\":{\"interrupted\":{\"after\":0,\"code\":91,\"labels\":[\"a\",\"b\"]}},\"deliver\":[7]}",
        deliver: &[7],
        name: "interrupted",
        after: 0,
        code: 91,
        labels: &["a", "b"],
    },
];

/// Steps that are no step, or not built yet.
const NO_STEPS: [&str; 34] = [
    "\"Serve\"",
    "\"reauthenticate\"",
    "1",
    "[]",
    "{}",
    "{\"serve\":{\"page\":-1}}",
    "{\"serve\":{},\"lost\":{}}",
    "{\"lost\":{}}",
    "{\"interrupted\":{\"code\":1,\"labels\":[]}}",
    "{\"interrupted\":{\"after\":1,\"labels\":[]}}",
    "{\"interrupted\":{\"after\":1,\"code\":1}}",
    "{\"interrupted\":{\"after\":1,\"code\":1,\"labels\":[],\"more\":1}}",
    "{\"interrupted\":{\"after\":-1,\"code\":1,\"labels\":[]}}",
    "{\"interrupted\":{\"after\":18446744073709551616,\"code\":1,\"labels\":[]}}",
    "{\"interrupted\":{\"after\":1,\"code\":2147483648,\"labels\":[]}}",
    "{\"interrupted\":{\"after\":1,\"code\":1,\"labels\":[1]}}",
    "{\"interrupted\":{\"after\":1,\"code\":391,\"labels\":[]}}",
    "{\"interrupted\":{\"after\":1,\"code\":1,\"labels\":[\"SystemOverloadedError\"]}}",
    "{\"interrupted\":{\"after\":1,\"code\":1,\"labels\":[\"a\",\"RetryableError\"]}}",
    "{\"refused\":{\"code\":13}}",
    "{\"refused\":{\"labels\":[]}}",
    "{\"refused\":{\"after\":0,\"code\":13,\"labels\":[]}}",
    "{\"refused\":{\"code\":13.0,\"labels\":[]}}",
    "{\"refused\":{\"code\":391,\"labels\":[]}}",
    "{\"refused\":{\"code\":13,\"labels\":[\"RetryableError\"]}}",
    "{\"refused\":{\"code\":13,\"labels\":[\"SystemOverloadedError\",\"RetryableError\"]}}",
    "{\"refused\":{\"code\":13,\"labels\":[]},\"interrupted\":{\"after\":1,\"code\":1,\"labels\":[]}}",
    "{\"deliver\":[0]}",
    "{\"item\":\"serve\"}",
    "{\"deliver\":0,\"item\":\"serve\"}",
    "{\"deliver\":[-1],\"item\":\"serve\"}",
    "{\"deliver\":[0],\"item\":\"serve\",\"more\":1}",
    "{\"deliver\":[0],\"item\":{\"deliver\":[],\"item\":\"serve\"}}",
    "{\"deliver\":[0],\"item\":{\"serve\":[]}}",
];

/// Scripts whose faults or late deliveries have a wrong form, or are not built yet.
const NO_SCRIPTS: [&str; 10] = [
    "{\"calls\":[],\"faults\":[]}",
    "{\"calls\":[],\"faults\":{\"select\":0}}",
    "{\"calls\":[],\"faults\":{\"checkOut\":[-1]}}",
    "{\"calls\":[],\"faults\":{\"overloaded\":[0]}}",
    "{\"calls\":[],\"faults\":{\"reauthenticate\":[0]}}",
    "{\"calls\":[],\"faults\":{\"support\":[0]}}",
    "{\"calls\":[],\"late\":0}",
    "{\"calls\":[],\"late\":[\"0\"]}",
    "{\"calls\":[],\"late\":[18446744073709551616]}",
    "{\"faults\":{},\"late\":[]}",
];

/// The script that a text is, and none where it is refused.
pub(crate) fn script_in(rt: &impl Abort, alloc: Global, text: &str) -> Option<Script> {
    match read_script(alloc, text.as_bytes()) {
        Ok(script) => Some(script),
        Err(ScriptFault::Memory) => Err(AllocError).made(rt),
        Err(_) => None,
    }
}

/// Whether a text is read as a script where it should be, and else refused as a whole.
pub(crate) fn is_told(rt: &impl Abort, alloc: Global, text: &str, read: bool) -> bool {
    match read_script(alloc, text.as_bytes()) {
        Ok(_) => read,
        Err(ScriptFault::Memory) => Err(AllocError).made(rt),
        Err(ScriptFault::Wrong { path }) => !read && path.as_str() == "$",
        Err(_) => false,
    }
}

/// The script whose schedule is one step.
fn script_of_step(rt: &impl Abort, alloc: Global, step: &str) -> Option<Script> {
    let mut text = String::new(alloc);
    text.push_str("{\"calls\":[],\"schedule\":[").made(rt);
    text.push_str(step).made(rt);
    text.push_str("]}").made(rt);
    script_in(rt, alloc, text.as_str())
}

/// Whether these are the labels of a row.
fn are_labels(labels: &[Text], expected: &[&str]) -> bool {
    if labels.len() != expected.len() {
        return false;
    }
    for (label, text) in labels.iter().zip(expected) {
        if label.as_str() != *text {
            return false;
        }
    }
    true
}

/// Whether an item is the one of a row.
fn is_item(item: &Item, row: &Row) -> bool {
    match item {
        Item::Serve {
            results,
            fail,
            write_concern_error,
            page,
        } => {
            row.name == "serve"
                && results.as_slice().is_empty()
                && fail.as_slice().is_empty()
                && write_concern_error.is_none()
                && page.is_none()
        }
        Item::Lost => row.name == "lost",
        Item::Late => row.name == "late",
        Item::ReplyLost => row.name == "replyLost",
        Item::Interrupted {
            after,
            code,
            labels,
        } => {
            row.name == "interrupted"
                && *after == row.after
                && *code == row.code
                && are_labels(labels.as_slice(), row.labels)
        }
        Item::Refused { code, labels } => {
            row.name == "refused" && *code == row.code && are_labels(labels.as_slice(), row.labels)
        }
        Item::Reauthenticate => false,
    }
}

/// Whether the steps of a schedule are the one of a row.
fn is_step(steps: &[Scheduled], row: &Row) -> bool {
    match steps {
        [step] => step.deliver.as_slice() == row.deliver && is_item(&step.item, row),
        _ => false,
    }
}

/// Whether the step of a row is read as the row says.
fn is_read(rt: &impl Abort, alloc: Global, row: &Row) -> bool {
    match script_of_step(rt, alloc, row.text) {
        Some(script) => is_step(script.schedule.items.as_slice(), row),
        None => false,
    }
}

/// The step of the first row that is not read as the row says.
fn first_unread(rt: &impl Abort, alloc: Global, rows: &[Row]) -> Option<&'static str> {
    for row in rows {
        if !is_read(rt, alloc, row) {
            return Some(row.text);
        }
    }
    None
}

/// The first of these that is read as a step.
fn first_step(rt: &impl Abort, alloc: Global, texts: &[&'static str]) -> Option<&'static str> {
    for text in texts {
        if script_of_step(rt, alloc, text).is_some() {
            return Some(*text);
        }
    }
    None
}

/// The first of these that is read as a script.
fn first_script(rt: &impl Abort, alloc: Global, texts: &[&'static str]) -> Option<&'static str> {
    for text in texts {
        if script_in(rt, alloc, text).is_some() {
            return Some(*text);
        }
    }
    None
}

/// Whether a script lists these selections and check-outs to fail, no other call, and these late deliveries.
fn lists(
    rt: &impl Abort,
    alloc: Global,
    text: &str,
    selects: &[u64],
    check_outs: &[u64],
    late: &[u64],
) -> bool {
    match script_in(rt, alloc, text) {
        Some(script) => {
            script.schedule.selects.as_slice() == selects
                && script.schedule.check_outs.as_slice() == check_outs
                && script.schedule.overloaded_check_outs.as_slice().is_empty()
                && script.schedule.reauthentications.as_slice().is_empty()
                && script.schedule.supports.as_slice().is_empty()
                && script.late.as_slice() == late
        }
        None => false,
    }
}

#[test]
fn steps_are_read(rt: HostRuntime) {
    let wrong = first_unread(&rt, rt.alloc(), &SERVED_OR_LOST);
    alike(&rt, wrong, None, "a step that is not read");
    let wrong = first_unread(&rt, rt.alloc(), &INTERRUPTED_OR_REFUSED);
    alike(&rt, wrong, None, "a step with a code that is not read");
}

#[test]
fn other_steps_are_refused(rt: HostRuntime) {
    let wrong = first_step(&rt, rt.alloc(), &NO_STEPS);
    alike(&rt, wrong, None, "no step, and not refused as it must be");
}

#[test]
fn other_faults_and_late_deliveries_are_refused(rt: HostRuntime) {
    let wrong = first_script(&rt, rt.alloc(), &NO_SCRIPTS);
    alike(&rt, wrong, None, "no script, and not refused as it must be");
}

#[test]
fn faults_and_late_deliveries_are_read(rt: HostRuntime) {
    let text = "{\"late\":[3,0,3],\"faults\":{\"checkOut\":[1],\"select\":[2,0]},\"calls\":[]}";
    holds(
        &rt,
        lists(&rt, rt.alloc(), text, &[2, 0], &[1], &[3, 0, 3]),
        text,
    );
}

#[test]
fn faults_and_late_deliveries_may_be_left_out(rt: HostRuntime) {
    let text = "{\"calls\":[],\"faults\":{}}";
    holds(&rt, lists(&rt, rt.alloc(), text, &[], &[], &[]), text);
}
