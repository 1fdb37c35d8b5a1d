//! Bulk writes whose answers come in pages, by the executor over a fake link: what goes out behind the command, which
//! rules a page may break, and what the error tells then.
use crate::asserting::{Made, alike, holds, holds_at};
use crate::replies::{Answer, First, Lack, Told, page_with, reply_bytes};
use bson_lite::{Bson, Bytes, List};
use driver_error::{IoKind, SummaryBulkWriteResult, VerboseBulkWriteResult};
use driver_link::{Frame, LinkFault};
use memory_links::{FakeLink, FakeStep};
use std::alloc::{AllocError, Global};
use std::process::Abort;
use test_parts::bulk_ends::{Cause, Ended, Failed, Source, counts, failed_page, how_ended, let_go};
use test_parts::bulk_runs::{Kind, executed_as, models_of};
use test_parts::inserting::SERVER;

/// A row: the models, whether results of ops are asked for, whether it is unordered, the answers, how it ends, and
/// which commands went out.
#[derive(Clone, Copy)]
struct Row(
    &'static [Kind],
    bool,
    bool,
    &'static [Answer],
    Ended,
    &'static [&'static str],
);

/// The label that lets a write be tried again.
const AGAIN: Option<&str> = Some("RetryableWriteError");

const TWO: &[Kind] = &[Kind::Insert, Kind::Insert];

/// An insert, an update and a delete.
const THREE: &[Kind] = &[Kind::Insert, Kind::UpdateOne, Kind::DeleteOne];

/// The results of two inserts, and of the first of them.
const BOTH: &[Told] = &[Told::Counted(0, 1), Told::Counted(1, 1)];

const ONE: &[Told] = &[Told::Counted(0, 1)];

/// A reply that tells of two inserts on one page that is the last, and one with an open cursor behind the first
/// result.
const WHOLE: First = First(0, [2, 0, 0, 0, 0], 0, BOTH, None, None);

const HALF: First = First(0, [2, 0, 0, 0, 0], 7, ONE, None, None);

/// Two inserts that failed, with a label and a write concern error.
const NONE_STANDS: First = First(
    2,
    [0, 0, 0, 0, 0],
    0,
    &[Told::Failed(1, 3), Told::Failed(0, 2)],
    AGAIN,
    Some(64),
);

/// The error of two inserts that were told of, whose page was refused.
const REFUSED: Ended = Ended::Bulk(Failed(
    0,
    None,
    0,
    Some([2, 0, 0, 0, 0]),
    Source::Command(43),
    false,
    true,
));

const REFUSED_AGAIN: Ended = Ended::Bulk(Failed(
    0,
    None,
    0,
    Some([2, 0, 0, 0, 0]),
    Source::Command(11600),
    false,
    true,
));

const LOST: Ended = Ended::Bulk(Failed(
    0,
    None,
    0,
    Some([2, 0, 0, 0, 0]),
    Source::Reset,
    false,
    true,
));

/// A rule that is broken: whether the batch is unordered, how many errors the reply counts, the results of a first
/// page, those of a page behind [`HALF`], and the rule.
#[derive(Clone, Copy)]
struct Broken(bool, i32, &'static [Told], &'static [Told], Cause);

/// Rules of the results of two inserts, each broken by what a first page has, and by a page behind one result.
const BROKEN: &[Broken] = &[
    Broken(
        false,
        0,
        &[Told::Counted(0, 1), Told::Counted(2, 1)],
        &[Told::Counted(2, 1)],
        Cause::Misplaced,
    ),
    Broken(
        false,
        0,
        &[Told::Counted(0, 1), Told::Counted(0, 1)],
        &[Told::Counted(0, 1)],
        Cause::Misplaced,
    ),
    Broken(false, 0, &[Told::Counted(0, 1)], &[], Cause::Missing),
    Broken(true, 1, BOTH, &[Told::Counted(1, 1)], Cause::Miscounted),
    Broken(
        true,
        0,
        &[Told::Counted(0, 1), Told::Failed(1, 11000)],
        &[Told::Failed(1, 11000)],
        Cause::Miscounted,
    ),
];

/// Forms that a results document must not have.
const ODD: &[Told] = &[
    Told::Nowhere,
    Told::Nothing(1),
    Told::Text,
    Told::Counted(-1, 1),
    Told::Counted(1, -1),
    Told::Changed(1, 1, -1),
    Told::PutInNothing(1, 1),
];

/// Pages that are refused or lost.
const REFUSED_PAGES: &[Row] = &[
    // The page is refused, and its cursor is ended.
    Row(
        TWO,
        true,
        false,
        &[
            Answer::First(HALF),
            Answer::Refused(43, None),
            Answer::Refused(43, None),
        ],
        REFUSED,
        &["bulkWrite", "getMore", "killCursors"],
    ),
    // A label of a page makes no resend.
    Row(
        TWO,
        true,
        false,
        &[
            Answer::First(HALF),
            Answer::Refused(11600, AGAIN),
            Answer::Plain,
            Answer::First(WHOLE),
        ],
        REFUSED_AGAIN,
        &["bulkWrite", "getMore", "killCursors"],
    ),
    // A lost page is no reason to end its cursor, nor to send anything again.
    Row(
        TWO,
        true,
        false,
        &[Answer::First(HALF), Answer::Reset, Answer::First(WHOLE)],
        LOST,
        &["bulkWrite", "getMore"],
    ),
];

/// Commands that are sent again.
const RESENT: &[Row] = &[
    // A label of the first reply makes a resend, where that tells of an error too.
    Row(
        TWO,
        true,
        false,
        &[
            Answer::First(First(0, [2, 0, 0, 0, 0], 7, ONE, AGAIN, None)),
            Answer::Refused(43, None),
            Answer::Plain,
            Answer::First(WHOLE),
        ],
        Ended::Done([2, 0, 0, 0, 0], 2),
        &["bulkWrite", "getMore", "killCursors", "bulkWrite"],
    ),
    Row(
        TWO,
        true,
        false,
        &[
            Answer::First(First(
                1,
                [1, 0, 0, 0, 0],
                7,
                &[Told::Counted(0, 1), Told::Failed(1, 11600)],
                AGAIN,
                None,
            )),
            Answer::Refused(43, None),
            Answer::Plain,
            Answer::First(WHOLE),
        ],
        Ended::Done([2, 0, 0, 0, 0], 2),
        &["bulkWrite", "getMore", "killCursors", "bulkWrite"],
    ),
    // An unordered one with an error for each op: nothing succeeded. Its label makes a resend.
    Row(
        TWO,
        false,
        true,
        &[Answer::First(NONE_STANDS), Answer::First(NONE_STANDS)],
        Ended::Bulk(Failed(2, Some((0, 2)), 1, None, Source::None, true, true)),
        &["bulkWrite", "bulkWrite"],
    ),
];

/// Results on more than one page.
const SEVERAL_PAGES: &[Row] = &[
    // Three pages, the first of which is empty.
    Row(
        THREE,
        true,
        false,
        &[
            Answer::First(First(0, [1, 2, 1, 0, 3], 9, &[], None, None)),
            Answer::Next(8, &[Told::Counted(0, 1), Told::Changed(1, 2, 1)]),
            Answer::Next(0, &[Told::Counted(2, 3)]),
        ],
        Ended::Done([1, 2, 1, 0, 3], 3),
        &["bulkWrite", "getMore", "getMore"],
    ),
    // In a summary results may be missing, and are passed over where they are not.
    Row(
        THREE,
        false,
        false,
        &[
            Answer::First(First(0, [1, 0, 0, 1, 1], 9, &[Told::PutIn(1, 1, 5)], None, None)),
            Answer::Next(0, &[]),
        ],
        Ended::Done([1, 0, 0, 1, 1], 0),
        &["bulkWrite", "getMore"],
    ),
    // Errors of an unordered batch on both of its pages.
    Row(
        THREE,
        true,
        true,
        &[
            Answer::First(First(2, [1, 0, 0, 0, 0], 7, &[Told::Failed(2, 5)], None, None)),
            Answer::Next(0, &[Told::Failed(1, 6), Told::Counted(0, 1)]),
        ],
        Ended::Bulk(Failed(
            2,
            Some((1, 6)),
            0,
            Some([1, 0, 0, 0, 0]),
            Source::None,
            false,
            true,
        )),
        &["bulkWrite", "getMore"],
    ),
];

/// Ordered bulk writes of which an op failed.
const ORDERED: &[Row] = &[
    // An ordered batch that stopped at its second op.
    Row(
        THREE,
        true,
        false,
        &[Answer::First(First(
            1,
            [1, 0, 0, 0, 0],
            0,
            &[Told::Counted(0, 1), Told::Failed(1, 11000)],
            None,
            None,
        ))],
        Ended::Bulk(Failed(
            1,
            Some((1, 11000)),
            0,
            Some([1, 0, 0, 0, 0]),
            Source::None,
            false,
            true,
        )),
        &["bulkWrite"],
    ),
    // One that stopped at its first op: nothing succeeded.
    Row(
        THREE,
        true,
        false,
        &[Answer::First(First(
            1,
            [0, 0, 0, 0, 0],
            0,
            &[Told::FailedCounted(0, 2, 1)],
            None,
            None,
        ))],
        Ended::Bulk(Failed(1, Some((0, 2)), 0, None, Source::None, false, true)),
        &["bulkWrite"],
    ),
    // Behind its error it has a result, or a second error.
    Row(
        THREE,
        true,
        false,
        &[Answer::First(First(
            1,
            [1, 0, 0, 0, 0],
            0,
            &[Told::Failed(1, 2), Told::Counted(2, 1)],
            None,
            None,
        ))],
        Ended::Invalid(Cause::Disordered),
        &["bulkWrite"],
    ),
    Row(
        THREE,
        false,
        false,
        &[Answer::First(First(
            2,
            [0, 0, 0, 0, 0],
            0,
            &[Told::Failed(0, 2), Told::Failed(1, 2)],
            None,
            None,
        ))],
        Ended::Invalid(Cause::Disordered),
        &["bulkWrite"],
    ),
    // The same on a further page.
    Row(
        THREE,
        true,
        false,
        &[
            Answer::First(First(
                1,
                [1, 0, 0, 0, 0],
                7,
                &[Told::Counted(0, 1), Told::Failed(1, 2)],
                None,
                None,
            )),
            Answer::Next(0, &[Told::Counted(2, 1)]),
            Answer::Plain,
        ],
        Ended::Bulk(Failed(
            1,
            Some((1, 2)),
            0,
            Some([1, 0, 0, 0, 0]),
            Source::Invalid(Cause::Disordered),
            false,
            true,
        )),
        &["bulkWrite", "getMore", "killCursors"],
    ),
    // In front of its error an ordered batch lacks a result.
    Row(
        THREE,
        true,
        false,
        &[Answer::First(First(1, [1, 0, 0, 0, 0], 0, &[Told::Failed(1, 2)], None, None))],
        Ended::Invalid(Cause::Missing),
        &["bulkWrite"],
    ),
];

/// Two inserts that were told of on one page, with a concern error or odd counts.
const ONE_PAGE: &[Row] = &[
    // A lone write concern error.
    Row(
        TWO,
        true,
        false,
        &[Answer::First(First(0, [2, 0, 0, 0, 0], 0, BOTH, None, Some(64)))],
        Ended::Bulk(Failed(0, None, 1, Some([2, 0, 0, 0, 0]), Source::None, false, true)),
        &["bulkWrite"],
    ),
    // A negative count of errors, and an error that no page tells of.
    Row(
        TWO,
        true,
        false,
        &[Answer::First(First(-1, [2, 0, 0, 0, 0], 0, BOTH, None, None))],
        Ended::Invalid(Cause::Reply),
        &["bulkWrite"],
    ),
    Row(
        TWO,
        false,
        false,
        &[Answer::First(First(1, [2, 0, 0, 0, 0], 0, &[], None, None))],
        Ended::Invalid(Cause::Miscounted),
        &["bulkWrite"],
    ),
];

/// Counts of which one is negative.
const NEGATIVE: &[[i32; 5]] = &[
    [-1, 0, 0, 0, 0],
    [2, -1, 0, 0, 0],
    [2, 0, -1, 0, 0],
    [2, 0, 0, -1, 0],
    [2, 0, 0, 0, -1],
];

/// What the cursor of a first reply must not lack.
const LACKS: &[Lack] = &[
    Lack::Cursor,
    Lack::Id,
    Lack::Namespace,
    Lack::Dot,
    Lack::Batch,
];

/// Pages behind [`HALF`] that do not do, and why.
const FAILED_PAGES: &[(Answer, Cause)] = &[
    (Answer::Next(7, &[]), Cause::Empty),
    (Answer::Unnamed, Cause::Page),
    (Answer::Bytes(b"\x05\0\0\0\x01"), Cause::NoDocument),
    (
        Answer::Next(0, &[Told::Counted(1, 1), Told::Counted(1, 1)]),
        Cause::Misplaced,
    ),
];

/// A fake link whose exchanges answer so.
fn link_of(rt: &impl Abort, alloc: Global, answers: &[Answer]) -> FakeLink {
    let mut descriptions = List::new(alloc);
    descriptions.push(SERVER).made(rt);
    let mut steps = List::new(alloc);
    for answer in answers {
        steps
            .push(match reply_bytes(rt, alloc, *answer) {
                Some(bytes) => FakeStep::Reply(bytes),
                None => FakeStep::Fault(LinkFault::Io(IoKind::ConnectionReset)),
            })
            .made(rt);
    }
    FakeLink::new(alloc, descriptions, steps)
}

/// Whether a frame's command has this name: its first key stands behind a length and a type.
fn is_named(frame: &Frame, name: &str) -> bool {
    let body = frame.body();
    for (at, byte) in name.as_bytes().iter().enumerate() {
        if body.get(at.saturating_add(5)) != Some(byte) {
            return false;
        }
    }
    body.get(name.len().saturating_add(5)) == Some(&0)
}

/// Whether these commands went out.
fn are_sent(link: &FakeLink, names: &[&str]) -> bool {
    let frames = link.frames();
    if frames.len() != names.len() {
        return false;
    }
    for (at, name) in names.iter().enumerate() {
        let same = match frames.get(at) {
            Some(frame) => is_named(frame, name),
            None => false,
        };
        if !same {
            return false;
        }
    }
    true
}

/// Whether all frames of a link went over its first connection.
fn are_over_one(link: &FakeLink) -> bool {
    for number in link.over() {
        if *number != 0 {
            return false;
        }
    }
    true
}

/// How a bulk write ends over a link, and the link.
fn run(
    rt: &impl Abort,
    alloc: Global,
    models: &[Kind],
    verbose: bool,
    unordered: bool,
    answers: &[Answer],
) -> (Ended, FakeLink) {
    let link = link_of(rt, alloc, answers);
    let models = models_of(alloc, models).made(rt);
    let (found, link) = if verbose {
        let (end, link) = executed_as::<VerboseBulkWriteResult, FakeLink>(
            alloc,
            link,
            models.as_slice(),
            unordered,
        );
        (how_ended(end), link)
    } else {
        let (end, link) = executed_as::<SummaryBulkWriteResult, FakeLink>(
            alloc,
            link,
            models.as_slice(),
            unordered,
        );
        (how_ended(end), link)
    };
    drop(models);
    (found, link)
}

/// Whether a row ends as it says.
fn ends(rt: &impl Abort, alloc: Global, row: Row) -> bool {
    let Row(models, verbose, unordered, answers, wanted, sent) = row;
    let (found, link) = run(rt, alloc, models, verbose, unordered, answers);
    let sent = are_sent(&link, sent);
    drop(link);
    found == wanted && sent
}

/// The place of the first of these rows that does not end as it says.
fn first_wrong(rt: &impl Abort, alloc: Global, rows: &[Row]) -> Option<usize> {
    for (at, row) in rows.iter().enumerate() {
        if !ends(rt, alloc, *row) {
            return Some(at);
        }
    }
    None
}

#[test]
fn an_answer_in_pages_is_read_to_its_end(rt: HostRuntime) {
    let wrong = first_wrong(&rt, rt.alloc(), REFUSED_PAGES);
    alike(
        &rt,
        wrong,
        None,
        "the first wrong row of pages that are refused or lost",
    );
    let wrong = first_wrong(&rt, rt.alloc(), RESENT);
    alike(
        &rt,
        wrong,
        None,
        "the first wrong row of commands that are sent again",
    );
    let wrong = first_wrong(&rt, rt.alloc(), SEVERAL_PAGES);
    alike(&rt, wrong, None, "the first wrong row of several pages");
    let wrong = first_wrong(&rt, rt.alloc(), ORDERED);
    alike(
        &rt,
        wrong,
        None,
        "the first wrong row of ordered bulk writes",
    );
    let wrong = first_wrong(&rt, rt.alloc(), ONE_PAGE);
    alike(&rt, wrong, None, "the first wrong row of one page");
}

/// Whether an update's result has the id of the document that it put in, and counts it as matched, as `n` does.
fn is_put_in(found: &VerboseBulkWriteResult) -> bool {
    let Some(result) = found.update_results.get(0) else {
        return false;
    };
    result.matched_count == 1
        && result.modified_count == 0
        && matches!(result.upserted_id, Some(Bson::Int32(9)))
        && counts(&found.summary) == [0, 0, 0, 1, 0]
}

/// Whether a bulk write of one update ends with such a result, where the reply tells of it.
fn tells_what_is_put_in(rt: &impl Abort, alloc: Global) -> bool {
    let reply = First(0, [0, 0, 0, 1, 0], 0, &[Told::PutIn(0, 1, 9)], None, None);
    let link = link_of(rt, alloc, &[Answer::First(reply)]);
    let models = models_of(alloc, &[Kind::UpdateOne]).made(rt);
    let (end, link) = executed_as::<VerboseBulkWriteResult, FakeLink>(
        alloc,
        link,
        models.as_slice(),
        false,
    );
    drop(link);
    drop(models);
    match end {
        Ok(found) => is_put_in(&found),
        Err(error) => {
            let_go(error);
            false
        }
    }
}

#[test]
fn an_update_that_puts_in_tells_its_id_and_its_count(rt: HostRuntime) {
    let told = tells_what_is_put_in(&rt, rt.alloc());
    holds(&rt, told, "the id and the count of what an update puts in");
}

/// Whether a rule that is broken on the first page makes that an InvalidResponse alone, after which nothing goes out.
fn is_refused_first(rt: &impl Abort, alloc: Global, broken: Broken) -> bool {
    let Broken(unordered, errors, first, _next, cause) = broken;
    let answers = [Answer::First(First(errors, [2, 0, 0, 0, 0], 0, first, None, None))];
    let (found, link) = run(rt, alloc, TWO, true, unordered, &answers);
    let refused = found == Ended::Invalid(cause) && are_sent(&link, &["bulkWrite"]);
    drop(link);
    refused
}

/// Whether it makes a further page the source of the error, after which its cursor is ended.
fn is_refused_behind(rt: &impl Abort, alloc: Global, broken: Broken) -> bool {
    let Broken(unordered, errors, _first, next, cause) = broken;
    let answers = [
        Answer::First(First(errors, [2, 0, 0, 0, 0], 7, ONE, None, None)),
        Answer::Next(0, next),
        Answer::Plain,
    ];
    let (found, link) = run(rt, alloc, TWO, true, unordered, &answers);
    let refused = found == failed_page(Source::Invalid(cause))
        && are_sent(&link, &["bulkWrite", "getMore", "killCursors"]);
    drop(link);
    refused
}

#[test]
fn a_page_that_breaks_a_rule_is_refused(rt: HostRuntime) {
    for (at, broken) in BROKEN.iter().enumerate() {
        let first = is_refused_first(&rt, rt.alloc(), *broken);
        holds_at(&rt, first, "a rule that is broken on the first page", at);
        let behind = is_refused_behind(&rt, rt.alloc(), *broken);
        holds_at(&rt, behind, "a rule that is broken on a further page", at);
    }
}

/// Whether a reply to two inserts breaks its form, after which nothing goes out.
fn is_no_reply(rt: &impl Abort, alloc: Global, reply: Answer) -> bool {
    let (found, link) = run(rt, alloc, TWO, true, false, &[reply]);
    let refused = found == Ended::Invalid(Cause::Reply) && are_sent(&link, &["bulkWrite"]);
    drop(link);
    refused
}

#[test]
fn a_reply_has_its_counts_and_its_cursor(rt: HostRuntime) {
    for (at, counts) in NEGATIVE.iter().enumerate() {
        let reply = Answer::First(First(0, *counts, 0, BOTH, None, None));
        let refused = is_no_reply(&rt, rt.alloc(), reply);
        holds_at(&rt, refused, "a reply with a negative count", at);
    }
    for (at, lack) in LACKS.iter().enumerate() {
        let refused = is_no_reply(&rt, rt.alloc(), Answer::Lacking(*lack));
        holds_at(&rt, refused, "a reply whose cursor lacks something", at);
    }
}

/// Whether a page makes the error so, whatever the end of its cursor is answered.
fn fails(rt: &impl Abort, alloc: Global, page: Answer, cause: Cause) -> bool {
    let answers = [Answer::First(HALF), page, Answer::Reset];
    let (found, link) = run(rt, alloc, TWO, true, false, &answers);
    let fails = found == failed_page(Source::Invalid(cause))
        && are_sent(&link, &["bulkWrite", "getMore", "killCursors"]);
    drop(link);
    fails
}

#[test]
fn a_page_that_does_not_do_ends_its_cursor(rt: HostRuntime) {
    for (at, (page, cause)) in FAILED_PAGES.iter().enumerate() {
        let fails = fails(&rt, rt.alloc(), *page, *cause);
        holds_at(&rt, fails, "a page that does not do", at);
    }
}

/// Whether a results document of this form makes its page one that does not do.
fn is_odd(rt: &impl Abort, alloc: Global, told: Told) -> bool {
    let link = link_with(rt, alloc, &[Answer::First(HALF)], told);
    let models = models_of(alloc, TWO).made(rt);
    let (end, link) = executed_as::<SummaryBulkWriteResult, FakeLink>(
        alloc,
        link,
        models.as_slice(),
        true,
    );
    let odd = how_ended(end) == failed_page(Source::Invalid(Cause::Page))
        && are_sent(&link, &["bulkWrite", "getMore", "killCursors"]);
    drop(link);
    drop(models);
    odd
}

/// Answers, and a page with one results document behind them.
fn link_with(rt: &impl Abort, alloc: Global, answers: &[Answer], told: Told) -> FakeLink {
    let mut descriptions = List::new(alloc);
    descriptions.push(SERVER).made(rt);
    let mut steps = List::new(alloc);
    for answer in answers {
        if let Some(bytes) = reply_bytes(rt, alloc, *answer) {
            steps.push(FakeStep::Reply(bytes)).made(rt);
        }
    }
    steps
        .push(FakeStep::Reply(page_with(rt, alloc, told)))
        .made(rt);
    FakeLink::new(alloc, descriptions, steps)
}

#[test]
fn a_results_document_has_its_form(rt: HostRuntime) {
    for (at, told) in ODD.iter().enumerate() {
        let odd = is_odd(&rt, rt.alloc(), *told);
        holds_at(&rt, odd, "a results document of an odd form", at);
    }
}

/// The first bytes of another list.
fn prefix(rt: &impl Abort, alloc: Global, bytes: &Bytes, count: usize) -> Bytes {
    let mut front = Vec::with_capacity(alloc, count).made(rt);
    for byte in bytes.as_slice().iter().take(count) {
        front.push(*byte).made(rt);
    }
    Bytes::from_vec(front)
}

/// Whether a reply that is cut short is no document, after which nothing goes out.
fn is_cut(rt: &impl Abort, alloc: Global, bytes: &Bytes, count: usize) -> bool {
    let mut descriptions = List::new(alloc);
    descriptions.push(SERVER).made(rt);
    let mut steps = List::new(alloc);
    steps
        .push(FakeStep::Reply(prefix(rt, alloc, bytes, count)))
        .made(rt);
    let link = FakeLink::new(alloc, descriptions, steps);
    let models = models_of(alloc, TWO).made(rt);
    let (end, link) = executed_as::<VerboseBulkWriteResult, FakeLink>(
        alloc,
        link,
        models.as_slice(),
        false,
    );
    let cut = how_ended(end) == Ended::Invalid(Cause::NoDocument)
        && are_sent(&link, &["bulkWrite"]);
    drop(link);
    drop(models);
    cut
}

#[test]
fn each_front_of_a_reply_is_refused(rt: HostRuntime) {
    let whole = reply_bytes(&rt, rt.alloc(), Answer::First(WHOLE));
    let bytes = whole.ok_or(AllocError).made(&rt);
    for count in 0..bytes.len() {
        let cut = is_cut(&rt, rt.alloc(), &bytes, count);
        alike(
            &rt,
            (count, cut),
            (count, true),
            "the first bytes of a reply, and their refusal",
        );
    }
    drop(bytes);
}

/// `{getMore: 7, collection: "coll.x", lsid: {id: 1}, $db: "db"}`
const MORE_BODY: &[u8] =
    b"]\0\0\0\x12getMore\0\x07\0\0\0\0\0\0\0\x02collection\0\x07\0\0\0coll.x\0\x03lsid\0\x1e\0\0\0\x05id\0\x10\0\0\0\x04\0\0\0\0\0\0\0\0\0\0\0\0\0\0\0\x01\0\x02$db\0\x03\0\0\0db\0\0";

/// `{killCursors: "coll.x", cursors: [7], $db: "db"}`
const KILL_BODY: &[u8] =
    b"B\0\0\0\x02killCursors\0\x07\0\0\0coll.x\0\x04cursors\0\x10\0\0\0\x120\0\x07\0\0\0\0\0\0\0\0\x02$db\0\x03\0\0\0db\0\0";

/// Whether question and end have these bytes, without sequences, in the database of the cursor, over the command's
/// connection.
fn are_spelled(link: &FakeLink) -> bool {
    match link.frames() {
        [_bulk, more, kill] => {
            more.body() == MORE_BODY
                && more.sequence_count() == 0
                && more.database() == "db"
                && kill.body() == KILL_BODY
                && kill.sequence_count() == 0
                && kill.database() == "db"
                && are_over_one(link)
        }
        _ => false,
    }
}

#[test]
fn commands_of_a_cursor_are_spelled_so(rt: HostRuntime) {
    let answers = [Answer::First(HALF), Answer::Refused(43, None)];
    let (_found, link) = run(&rt, rt.alloc(), TWO, true, false, &answers);
    let spelled = are_spelled(&link);
    drop(link);
    holds(&rt, spelled, "the question and the end of a cursor");
}
