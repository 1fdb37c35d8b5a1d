//! Rounds of the codec's work, to be timed from outside: `encode flat 2000 copy small 20` does the
//! first work 2,000 times and the second 20 times, and prints what came out of each.
//!
//! Nothing is promised but that it ends: what `encode` and `decode` answer is proved in their crate.
#![tactic(auto)]

mod samples;
mod work;

use crate::samples::Sample;
use crate::work::Work;
use std::fmt::Write;
use std::{env, io};

fn main(rt: HostRuntime) -> io::Result<()> {
    let mut words = env::args(&rt)?.skip(1);
    for _ in 0..u64::MAX {
        let Some(work) = words.next() else {
            return Ok(());
        };
        let (Some(sample), Some(rounds)) = (words.next(), words.next()) else {
            break;
        };
        let (Some(kind), Some(of), Ok(count)) = (
            Work::named(&work),
            Sample::named(&sample),
            rounds.parse::<u64>(),
        ) else {
            break;
        };
        match kind.run(rt.alloc(), of, count) {
            Ok(sum) => println!(rt; "{work} {sample} {count}: {sum}")?,
            Err(fault) => println!(rt; "{work} {sample}: {fault:?}")?,
        }
    }
    println!(rt; "usage: (encode | decode | copy) (flat | nested | small) ROUNDS ..")
}
