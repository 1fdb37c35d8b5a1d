//! Rows of scripts, as a file has them. Behind its heading each begins with a line of four equals signs, which may say
//! something of it; then come the script, a line of two hyphens, and the report.
use bson_lite::{Bytes, List};
use memory_links::{MemSink, MemSource};
use script_run::{Run, run_script};
use std::alloc::{AllocError, Global};

/// How many rows a file has, or the first that is not reported as it says, counted from 1.
pub(crate) enum Told {
    All(usize),
    Wrong(usize),
}

/// Whether a script ends with status 0 and with this report, for which there is just room.
fn is_reported(alloc: Global, script: &str, report: &str) -> Result<bool, AllocError> {
    let bytes = Bytes::from_slice(alloc, script.as_bytes())?;
    let mut source = MemSource::new(bytes, List::new(alloc));
    let mut sink = MemSink::new(alloc, report.len(), List::new(alloc))?;
    let mut run = Run::new();
    let status = run_script(alloc, &mut source, &mut sink, &mut run);
    drop(run);
    Ok(status == 0 && sink.contents() == report.as_bytes())
}

/// Whether a row is reported as it says. What has no script or no report is not.
fn row_is_reported(alloc: Global, row: &str) -> Result<bool, AllocError> {
    let Some((_remark, row)) = row.split_once("\n") else {
        return Ok(false);
    };
    let Some((script, report)) = row.split_once("--\n") else {
        return Ok(false);
    };
    is_reported(alloc, script, report)
}

/// What the rows of a file come to.
pub(crate) fn tell(alloc: Global, text: &str) -> Result<Told, AllocError> {
    let mut count: usize = 0;
    for row in text.split("====").skip(1) {
        count = count.saturating_add(1);
        if !row_is_reported(alloc, row)? {
            return Ok(Told::Wrong(count));
        }
    }
    Ok(Told::All(count))
}
