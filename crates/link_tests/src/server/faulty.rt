//! Each call that a schedule fails.
ghost use Rattle.std.specs.Prelude.{◌≡◌, []};

use super::*;
use driver_link::{Link, Schedule};
use driver_options::{Address, Conn};
use model_server::{ModelServer, USUAL_SETUP};

/// A list of one number.
fn one(rt: &impl Abort, alloc: Global, number: u64) -> List<u64> {
    let mut list = List::new(alloc);
    list.push(number).made(rt);
    list
}

/// The first call of each kind fails, of check-outs the first two.
fn first_calls_fail(rt: &impl Abort, alloc: Global) -> Schedule
    ensures { result.items ≡ [] }
{
    Schedule {
        items: List::new(alloc),
        selects: one(rt, alloc, 0),
        check_outs: one(rt, alloc, 1),
        overloaded_check_outs: one(rt, alloc, 0),
        reauthentications: one(rt, alloc, 0),
        supports: one(rt, alloc, 0),
    }
}

fn address(rt: &impl Abort, alloc: Global) -> Address {
    Address {
        host: Text::from_str(alloc, "model").made(rt),
        port: 27017,
    }
}

fn selects(model: &mut ModelServer, alloc: Global) -> bool {
    model.select(alloc, None, &[]).is_ok()
}

fn tells_support(model: &mut ModelServer, alloc: Global) -> bool {
    model.transaction_support(alloc).is_ok()
}

fn conn_of(rt: &impl Abort, model: &mut ModelServer, alloc: Global) -> Option<Conn> {
    model.check_out(alloc, &address(rt, alloc)).ok()
}

fn authenticates(model: &mut ModelServer, alloc: Global, conn: &Conn) -> bool {
    model.reauthenticate(alloc, conn).is_ok()
}

/// Which calls answer, one of each kind.
#[derive(Clone, Copy, Debug, PartialEq, Eq)]
struct Answers {
    selects: bool,
    tells_support: bool,
    checks_out: bool,
    authenticates: bool,
}

/// Four rounds, by the lists of calls that fail.
const ROUNDS: [Answers; 4] = [
    Answers {
        selects: false,
        tells_support: false,
        checks_out: false,
        authenticates: false,
    },
    Answers {
        selects: true,
        tells_support: true,
        checks_out: false,
        authenticates: false,
    },
    Answers {
        selects: true,
        tells_support: true,
        checks_out: true,
        authenticates: false,
    },
    Answers {
        selects: true,
        tells_support: true,
        checks_out: true,
        authenticates: true,
    },
];

/// Which calls answer in a round.
fn answers_of(rt: &impl Abort, model: &mut ModelServer, alloc: Global) -> Answers {
    let selects = selects(model, alloc);
    let tells_support = tells_support(model, alloc);
    let Some(conn) = conn_of(rt, model, alloc) else {
        return Answers {
            selects,
            tells_support,
            checks_out: false,
            authenticates: false,
        };
    };
    let authenticates = authenticates(model, alloc, &conn);
    model.check_in(conn);
    Answers {
        selects,
        tells_support,
        checks_out: true,
        authenticates,
    }
}

/// The first round whose calls answer otherwise, with what answered.
fn wrong_round(
    rt: &impl Abort,
    alloc: Global,
    model: &mut ModelServer,
    rounds: &[Answers],
) -> Option<(usize, Answers)> {
    for (at, round) in rounds.iter().enumerate() {
        let answers = answers_of(rt, model, alloc);
        if answers != *round {
            return Some((at, answers));
        }
    }
    None
}

#[test]
fn listed_calls_fail(rt: HostRuntime) {
    let alloc = rt.alloc();
    let mut model = ModelServer::new(alloc, USUAL_SETUP, first_calls_fail(&rt, alloc));
    let wrong = wrong_round(&rt, alloc, &mut model, &ROUNDS);
    let answered = model.answered().len();
    drop(model);
    alike(&rt, wrong, None, "the round whose calls answer otherwise");
    alike(&rt, answered, 5, "how many answers are told");
}
