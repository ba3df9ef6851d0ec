//! The console: reads a script on standard input, a command to a line, runs each on the library and prints what it did.
#![tactic(auto)]

mod answer;
mod error;
mod session;
#[cfg(test)]
mod tests;

use error::LineError;
use script::text::line_end;
use session::run_line;
use std::alloc::Global;
use std::io;
use std::io::Read;

fn main(rt: HostRuntime) -> io::Result<()> {
    let mut script = Vec::new(rt.alloc());
    rt.stdin().read_to_end(&mut script)?;
    run(&rt, rt.alloc(), script.as_slice())
}

// Runs each line of the script in turn, and prints its answer or why it has none.
fn run(rt: &impl Print, heap: Global, script: &[u8]) -> io::Result<()> {
    let mut session = None;
    let mut rest = script;
    // Not by `split`: `line_end` says where each line ends.
    while !rest.is_empty() {
        let (line, more) = rest.split_at(line_end(rest, 0));
        match run_line(heap, &mut session, line) {
            Ok(None) => {}
            Ok(Some(answer)) => println!(rt; "{answer}")?,
            Err(LineError::OutOfMemory) => return Err(io::ErrorKind::OutOfMemory.into()),
            Err(error) => println!(rt; "{error}")?,
        }
        // without the line feed
        rest = &more[more.len().min(1)..];
    }
    Ok(())
}
