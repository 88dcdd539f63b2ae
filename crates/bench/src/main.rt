//! The bench: reads lines from standard input, keeps one packet, and answers each line on standard output.
#![tactic(auto)]

mod answer;
mod desk;
mod digits;
mod input;
mod line;
mod print;
mod reply;
mod session;
mod state;

use session::Session;
use std::io::{Read, Write};

/// How much is read at a time.
const CHUNK: usize = 65536;

/// Answers all of standard input, part by part.
fn run(rt: &HostRuntime) -> anyhow::Result<()> {
    let mut session = Session::new(rt.alloc());
    let mut chunk = vec![in rt.alloc(); 0u8; CHUNK]?;
    let mut input = rt.stdin();
    let mut output = rt.stdout();
    for _ in 0..u64::MAX {
        let count = input.read(&mut chunk)?;
        if count == 0 {
            break;
        }
        session.feed(&chunk[0..count])?;
        output.write_all(session.desk.text.as_bytes())?;
        session.desk.text.clear();
    }
    session.finish()?;
    output.write_all(session.desk.text.as_bytes())?;
    Ok(())
}

fn main(rt: HostRuntime) -> anyhow::Result<()> {
    run(&rt)
}
