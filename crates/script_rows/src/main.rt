//! The program `script_rows`: it runs the scripts of files of rows in memory, and tells of each file how many of them
//! there are, or the first that is not reported as it says.
#![tactic(auto)]

mod rows;

use crate::rows::{Told, tell};
use std::{env, fs, io};

fn main(rt: HostRuntime) -> io::Result<()> {
    for name in env::args(&rt)?.skip(1) {
        let text = fs::read_to_string(&rt, name.as_str())?;
        match tell(rt.alloc(), text.as_str())? {
            Told::All(count) => println!(rt; "{name}: {count} scripts are reported as they say")?,
            Told::Wrong(place) => println!(rt;
                "{name}: SCRIPT {place} IS NOT REPORTED AS IT SAYS"
            )?,
        }
    }
    Ok(())
}
