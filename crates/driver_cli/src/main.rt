//! The program `driver_cli`: it runs the script on its standard input against the model server, and
//! writes the report to its standard output.
#![tactic(auto)]

use bson_lite::Text;
use script_run::{Run, top};
use standard_streams::{Reading, Writing};
use std::alloc::AllocError;
use std::env::Env;
use std::io::ErrorKind;
use std::process::ExitCode;
use std::{env, io};

/// The status of want of memory.
const MEMORY: u8 = 6;

fn main(rt: HostRuntime) -> ExitCode {
    let mut source = Reading::new(rt.reader());
    let mut sink = Writing::new(io::writer(&rt));
    let mut run = Run::new();
    let status = match words_of(&rt) {
        Ok(words) => top(
            &rt,
            rt.alloc(),
            words.as_slice(),
            &mut source,
            &mut sink,
            &mut run,
        ),
        Err(AllocError) => MEMORY,
    };
    ExitCode::from(status)
}

/// The words after the program's name; none where they can't be read or one of them is not UTF-8.
fn words_of<R: Env + AllocGlobal>(rt: &R) -> Result<Vec<Text>, AllocError> {
    let mut words = Vec::new(rt.alloc());
    match env::args(rt) {
        Ok(args) => {
            for word in args.skip(1) {
                words.push(Text::from_string(word))?;
            }
            Ok(words)
        }
        Err(error) => {
            if error.kind() == ErrorKind::OutOfMemory {
                return Err(AllocError);
            }
            Ok(words)
        }
    }
}
