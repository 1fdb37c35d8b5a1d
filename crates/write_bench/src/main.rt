//! Small inserts by a client, to be timed from outside: `single 1000 list 10` makes 1,000 of them by a call each,
//! and then 10 as one list, and prints what came out of each. `many` inserts so many documents by one call, and `given`
//! makes that call without running it. `bulk` inserts them by one bulk write, `verbose` by one that answers the result of
//! each, and `models` and `results` make the same models without it. `split` and `build` cut a list of them.
//!
//! Nothing is promised but that it ends: what a call answers is proved in `driver_actions`.
#![tactic(auto)]

mod batches;
mod bulk;
mod inserts;
mod many;
mod one_reply;
mod work;

use crate::work::Work;
use std::fmt::Write;
use std::{env, io};

fn main(rt: HostRuntime) -> io::Result<()> {
    let mut words = env::args(&rt)?.skip(1);
    for _ in 0..u64::MAX {
        let Some(word) = words.next() else {
            return Ok(());
        };
        let Some(number) = words.next() else {
            break;
        };
        let (Some(work), Ok(count)) = (Work::named(&word), number.parse::<u32>()) else {
            break;
        };
        if count > work.limit() {
            break;
        }
        match work.run(rt.alloc(), count) {
            Ok(found) => println!(rt; "{word} {count}: {found}")?,
            Err(error) => {
                let told = println!(rt; "{word} {count}: {error}");
                drop(error);
                told?;
            }
        }
    }
    println!(rt;
        "usage: (single N | list N | split N | build N | given N | many N | models N | bulk N | results N | verbose N) .. with at most 1000000 inserts, and 100000 for the others"
    )
}
