//! Single writes over a link that would answer each one: what is refused for its input or for its concern, before
//! anything is sent and without labels, and what is sent beside it.
use crate::asserting::{Made, alike, holds, holds_at};
use crate::calling::id_of;
use bson_lite::List;
use driver_inputs::{Call, Outcome};
use std::alloc::Global;
use std::process::Abort;
use test_parts::faking::{ALIKE, ANY_DONE, DONE, Given, fake_link, outcomes_over};
use test_parts::inserting::{Ended, answered_under, how_ended, label_count, seen_end};
use test_parts::writes::{
    Asked, Change, Concern, Flaw, KINDS, Kind, Odd, Part, usual, write_concern, write_of,
};

/// What updates and replacements do, and how they end: an update begins with an operator and a replacement does
/// not, by its first key alone, and the stages of a pipeline are not judged.
const CHANGES: &[(Kind, Change, Ended)] = &[
    (Kind::UpdateOne, Change::Operators, Ended::Done),
    (Kind::UpdateOne, Change::Plain, Ended::PlainUpdate),
    (Kind::UpdateOne, Change::LateOperator, Ended::PlainUpdate),
    (Kind::UpdateOne, Change::Empty, Ended::PlainUpdate),
    (Kind::UpdateOne, Change::Pipeline, Ended::Done),
    (Kind::UpdateOne, Change::NoStages, Ended::Done),
    (Kind::UpdateMany, Change::Operators, Ended::Done),
    (Kind::UpdateMany, Change::Plain, Ended::PlainUpdate),
    (Kind::UpdateMany, Change::LateOperator, Ended::PlainUpdate),
    (Kind::UpdateMany, Change::Empty, Ended::PlainUpdate),
    (Kind::UpdateMany, Change::Pipeline, Ended::Done),
    (
        Kind::ReplaceOne,
        Change::Operators,
        Ended::OperatorReplacement,
    ),
    (Kind::ReplaceOne, Change::Plain, Ended::Done),
    (Kind::ReplaceOne, Change::LateOperator, Ended::Done),
    (Kind::ReplaceOne, Change::Empty, Ended::Done),
    (Kind::FindOneAndUpdate, Change::Operators, Ended::Done),
    (Kind::FindOneAndUpdate, Change::Plain, Ended::PlainUpdate),
    (
        Kind::FindOneAndUpdate,
        Change::LateOperator,
        Ended::PlainUpdate,
    ),
    (Kind::FindOneAndUpdate, Change::Empty, Ended::PlainUpdate),
    (Kind::FindOneAndUpdate, Change::Pipeline, Ended::Done),
    (Kind::FindOneAndUpdate, Change::NoStages, Ended::Done),
    (
        Kind::FindOneAndReplace,
        Change::Operators,
        Ended::OperatorReplacement,
    ),
    (Kind::FindOneAndReplace, Change::Plain, Ended::Done),
    (Kind::FindOneAndReplace, Change::LateOperator, Ended::Done),
    (Kind::FindOneAndReplace, Change::Empty, Ended::Done),
];

/// The parts of each kind, with the change that they stand beside. Each nests at most 96 levels.
const PARTS: &[(Kind, Change, Part)] = &[
    (Kind::InsertOne, Change::Plain, Part::Change),
    (Kind::InsertOne, Change::Plain, Part::Comment),
    (Kind::UpdateOne, Change::Operators, Part::Filter),
    (Kind::UpdateOne, Change::Operators, Part::Change),
    (Kind::UpdateOne, Change::Pipeline, Part::Stage),
    (Kind::UpdateOne, Change::Operators, Part::ArrayFilter),
    (Kind::UpdateOne, Change::Operators, Part::HintKeys),
    (Kind::UpdateOne, Change::Operators, Part::Collation),
    (Kind::UpdateOne, Change::Operators, Part::Let),
    (Kind::UpdateOne, Change::Operators, Part::Comment),
    (Kind::UpdateOne, Change::Operators, Part::Sort),
    (Kind::UpdateMany, Change::Operators, Part::Filter),
    (Kind::UpdateMany, Change::Operators, Part::Change),
    (Kind::UpdateMany, Change::Pipeline, Part::Stage),
    (Kind::UpdateMany, Change::Operators, Part::ArrayFilter),
    (Kind::ReplaceOne, Change::Plain, Part::Filter),
    (Kind::ReplaceOne, Change::Plain, Part::Change),
    (Kind::ReplaceOne, Change::Plain, Part::Sort),
    (Kind::DeleteOne, Change::Plain, Part::Filter),
    (Kind::DeleteOne, Change::Plain, Part::Collation),
    (Kind::DeleteOne, Change::Plain, Part::HintKeys),
    (Kind::DeleteOne, Change::Plain, Part::Let),
    (Kind::DeleteOne, Change::Plain, Part::Comment),
    (Kind::DeleteMany, Change::Plain, Part::Filter),
    (Kind::FindOneAndDelete, Change::Plain, Part::Filter),
    (Kind::FindOneAndDelete, Change::Plain, Part::Sort),
    (Kind::FindOneAndDelete, Change::Plain, Part::Projection),
    (Kind::FindOneAndDelete, Change::Plain, Part::HintKeys),
    (Kind::FindOneAndDelete, Change::Plain, Part::Collation),
    (Kind::FindOneAndDelete, Change::Plain, Part::Let),
    (Kind::FindOneAndDelete, Change::Plain, Part::Comment),
    (Kind::FindOneAndUpdate, Change::Operators, Part::Filter),
    (Kind::FindOneAndUpdate, Change::Operators, Part::Change),
    (Kind::FindOneAndUpdate, Change::Pipeline, Part::Stage),
    (Kind::FindOneAndUpdate, Change::Operators, Part::ArrayFilter),
    (Kind::FindOneAndUpdate, Change::Operators, Part::HintKeys),
    (Kind::FindOneAndUpdate, Change::Operators, Part::Collation),
    (Kind::FindOneAndUpdate, Change::Operators, Part::Let),
    (Kind::FindOneAndUpdate, Change::Operators, Part::Comment),
    (Kind::FindOneAndUpdate, Change::Operators, Part::Sort),
    (Kind::FindOneAndUpdate, Change::Operators, Part::Projection),
    (Kind::FindOneAndReplace, Change::Plain, Part::Filter),
    (Kind::FindOneAndReplace, Change::Plain, Part::Change),
    (Kind::FindOneAndReplace, Change::Plain, Part::Let),
    (Kind::FindOneAndReplace, Change::Plain, Part::Projection),
    (Kind::FindOneAndReplace, Change::Plain, Part::HintKeys),
    (Kind::FindOneAndReplace, Change::Plain, Part::Collation),
    (Kind::FindOneAndReplace, Change::Plain, Part::Comment),
    (Kind::FindOneAndReplace, Change::Plain, Part::Sort),
];

/// How a part ends by its flaw.
const FLAWS: &[(Flaw, Ended)] = &[
    (Flaw::Levels(96), Ended::Done),
    (Flaw::Levels(97), Ended::TooDeep),
    (Flaw::ZeroByte, Ended::ZeroByte),
];

/// What is refused first of two faults, and before a concern that nobody acknowledges: the name of the database,
/// the change by its first key, what is too deep, what holds a zero byte.
const FIRST: &[(Asked, Ended)] = &[
    (
        Asked {
            kind: Kind::UpdateOne,
            dotted: true,
            change: Change::Plain,
            odd: None,
            also: None,
        },
        Ended::Dotted,
    ),
    (
        Asked {
            kind: Kind::UpdateMany,
            dotted: false,
            change: Change::Plain,
            odd: Some(Odd {
                part: Part::Filter,
                flaw: Flaw::Levels(97),
            }),
            also: None,
        },
        Ended::PlainUpdate,
    ),
    (
        Asked {
            kind: Kind::ReplaceOne,
            dotted: false,
            change: Change::Operators,
            odd: Some(Odd {
                part: Part::Sort,
                flaw: Flaw::ZeroByte,
            }),
            also: None,
        },
        Ended::OperatorReplacement,
    ),
    (
        Asked {
            kind: Kind::UpdateOne,
            dotted: false,
            change: Change::Operators,
            odd: Some(Odd {
                part: Part::Filter,
                flaw: Flaw::ZeroByte,
            }),
            also: Some(Odd {
                part: Part::Sort,
                flaw: Flaw::Levels(97),
            }),
        },
        Ended::TooDeep,
    ),
    (
        Asked {
            kind: Kind::DeleteOne,
            dotted: false,
            change: Change::Plain,
            odd: Some(Odd {
                part: Part::Filter,
                flaw: Flaw::ZeroByte,
            }),
            also: Some(Odd {
                part: Part::Comment,
                flaw: Flaw::Levels(97),
            }),
        },
        Ended::TooDeep,
    ),
    (
        Asked {
            kind: Kind::DeleteMany,
            dotted: false,
            change: Change::Plain,
            odd: Some(Odd {
                part: Part::Filter,
                flaw: Flaw::ZeroByte,
            }),
            also: None,
        },
        Ended::ZeroByte,
    ),
    (
        Asked {
            kind: Kind::FindOneAndUpdate,
            dotted: true,
            change: Change::Plain,
            odd: None,
            also: None,
        },
        Ended::Dotted,
    ),
    (
        Asked {
            kind: Kind::FindOneAndReplace,
            dotted: false,
            change: Change::Operators,
            odd: Some(Odd {
                part: Part::Projection,
                flaw: Flaw::Levels(97),
            }),
            also: None,
        },
        Ended::OperatorReplacement,
    ),
    (
        Asked {
            kind: Kind::FindOneAndDelete,
            dotted: false,
            change: Change::Plain,
            odd: Some(Odd {
                part: Part::Filter,
                flaw: Flaw::ZeroByte,
            }),
            also: Some(Odd {
                part: Part::Projection,
                flaw: Flaw::Levels(97),
            }),
        },
        Ended::TooDeep,
    ),
];

/// A write's own concern, its client's, and how it ends: the own one alone counts where there is one.
const CONCERNS: &[(Concern, Concern, Ended)] = &[
    (Concern::Nodes(0), Concern::Nodes(1), Ended::Unacknowledged),
    (Concern::Nodes(0), Concern::Unset, Ended::Unacknowledged),
    (Concern::Unset, Concern::Nodes(0), Ended::Unacknowledged),
    (Concern::Nodes(1), Concern::Nodes(0), Ended::Done),
    (Concern::Bare, Concern::Nodes(0), Ended::Done),
    (
        Concern::Nodes(2_147_483_648),
        Concern::Nodes(1),
        Ended::InvalidConcern,
    ),
    (
        Concern::Nodes(1),
        Concern::Nodes(2_147_483_648),
        Ended::Done,
    ),
];

/// Whether a write under its own concern and its client's ends so, without labels: it is sent once where it is
/// done, and else not at all.
fn ends(
    rt: &impl Abort,
    alloc: Global,
    asked: Asked,
    own: Concern,
    client: Concern,
    ended: Ended,
) -> bool {
    let link = fake_link(alloc, ALIKE, &[Given::Reply(ANY_DONE)]).made(rt);
    let write = write_of(alloc, asked, own).made(rt);
    let (result, link) = answered_under(alloc, link, &write, write_concern(client));
    drop(write);
    let sent = link.frames().len();
    drop(link);
    let wanted = if ended == Ended::Done { 1 } else { 0 };
    match seen_end(alloc, result) {
        Some(seen) => seen.ended == ended && seen.labels == 0 && sent == wanted,
        None => false,
    }
}

/// The same without a concern.
fn ends_without(rt: &impl Abort, alloc: Global, asked: Asked, ended: Ended) -> bool {
    ends(rt, alloc, asked, Concern::Unset, Concern::Unset, ended)
}

/// Whether a write with a dot in its database's name is refused for it.
fn refuses_the_name(rt: &impl Abort, alloc: Global, kind: Kind) -> bool {
    let asked = Asked {
        dotted: true,
        ..usual(kind)
    };
    ends_without(rt, alloc, asked, Ended::Dotted)
}

/// Whether a write with this change ends so.
fn change_ends(rt: &impl Abort, alloc: Global, kind: Kind, change: Change, ended: Ended) -> bool {
    let asked = Asked {
        change,
        ..usual(kind)
    };
    ends_without(rt, alloc, asked, ended)
}

/// Whether a write with a flaw in a part ends so.
fn flaw_ends(
    rt: &impl Abort,
    alloc: Global,
    row: (Kind, Change, Part),
    flaw: Flaw,
    ended: Ended,
) -> bool {
    let (kind, change, part) = row;
    let asked = Asked {
        change,
        odd: Some(Odd { part, flaw }),
        ..usual(kind)
    };
    ends_without(rt, alloc, asked, ended)
}

/// The place of the first part of the table that does not end so with a flaw.
fn wrong_part(rt: &impl Abort, alloc: Global, flaw: Flaw, ended: Ended) -> Option<usize> {
    for (place, row) in PARTS.iter().enumerate() {
        if !flaw_ends(rt, alloc, *row, flaw, ended) {
            return Some(place);
        }
    }
    None
}

/// The first kind that does not end so under these concerns.
fn wrong_kind(
    rt: &impl Abort,
    alloc: Global,
    own: Concern,
    client: Concern,
    ended: Ended,
) -> Option<Kind> {
    for kind in KINDS {
        if !ends(rt, alloc, usual(*kind), own, client, ended) {
            return Some(*kind);
        }
    }
    None
}

/// An insert that nobody acknowledges, and one that asks for nothing.
fn two_inserts(rt: &impl Abort, alloc: Global) -> List<Call> {
    let mut calls = List::with_capacity(alloc, 2).made(rt);
    let write = write_of(alloc, usual(Kind::InsertOne), Concern::Nodes(0)).made(rt);
    calls.push(Call::Single { write }).made(rt);
    let write = write_of(alloc, usual(Kind::InsertOne), Concern::Unset).made(rt);
    calls.push(Call::Single { write }).made(rt);
    calls
}

/// Whether an outcome is the refusal of a write that nobody acknowledges, without labels.
fn is_unacknowledged(alloc: Global, outcome: &Outcome) -> bool {
    match &outcome.result {
        Ok(_) => false,
        Err(error) => {
            how_ended(error) == Ended::Unacknowledged && label_count(alloc, error) == Some(0)
        }
    }
}

/// Whether the first is such a refusal, and the second an Ok with the second object id.
fn skips_one_id(alloc: Global, outcomes: &[Outcome]) -> bool {
    match outcomes {
        [first, second] => is_unacknowledged(alloc, first) && id_of(second) == Some(2),
        _ => false,
    }
}

/// Whether the object id of an insert that is refused for its concern stays drawn, and the next insert alone is
/// sent, with the next id.
fn keeps_the_id_drawn(rt: &impl Abort, alloc: Global) -> bool {
    let link = fake_link(alloc, ALIKE, &[Given::Reply(DONE)]).made(rt);
    let calls = two_inserts(rt, alloc);
    let (outcomes, sent) = outcomes_over(alloc, link, calls.as_slice()).made(rt);
    drop(calls);
    let skips = skips_one_id(alloc, outcomes.as_slice());
    drop(outcomes);
    skips && sent == 1
}

#[test]
fn a_database_with_a_dot_is_refused(rt: HostRuntime) {
    for (at, kind) in KINDS.iter().enumerate() {
        let refused = refuses_the_name(&rt, rt.alloc(), *kind);
        holds_at(
            &rt,
            refused,
            "a write of each kind is refused for its name",
            at,
        );
    }
}

#[test]
fn an_update_begins_with_an_operator_and_a_replacement_does_not(rt: HostRuntime) {
    for (at, (kind, change, ended)) in CHANGES.iter().enumerate() {
        let ends = change_ends(&rt, rt.alloc(), *kind, *change, *ended);
        holds_at(
            &rt,
            ends,
            "how an update or a replacement ends by its change",
            at,
        );
    }
}

#[test]
fn each_part_nests_at_most_96_levels_and_holds_no_zero_byte(rt: HostRuntime) {
    for (at, (flaw, ended)) in FLAWS.iter().enumerate() {
        let wrong = wrong_part(&rt, rt.alloc(), *flaw, *ended);
        alike(
            &rt,
            (at, wrong),
            (at, None),
            "a flaw, and the first part that does not end so",
        );
    }
}

#[test]
fn faults_are_found_in_their_order(rt: HostRuntime) {
    for (at, (asked, ended)) in FIRST.iter().enumerate() {
        let ends = ends(
            &rt,
            rt.alloc(),
            *asked,
            Concern::Nodes(0),
            Concern::Unset,
            *ended,
        );
        holds_at(&rt, ends, "which of two faults is told", at);
    }
}

#[test]
fn a_writes_own_concern_counts_before_its_clients(rt: HostRuntime) {
    for (at, (own, client, ended)) in CONCERNS.iter().enumerate() {
        let wrong = wrong_kind(&rt, rt.alloc(), *own, *client, *ended);
        alike(
            &rt,
            (at, wrong),
            (at, None),
            "two concerns, and the first kind that does not end so",
        );
    }
}

#[test]
fn an_id_that_was_drawn_for_a_refused_insert_stays_drawn(rt: HostRuntime) {
    let keeps = keeps_the_id_drawn(&rt, rt.alloc());
    holds(&rt, keeps, "the id of a refused insert stays drawn");
}
