//! Shows layouts. Given a layout, it prints its items and draws its frame; given two, it says whether the second extends the
//! first. A layout is a published one by its name, or a layout file by its path. Without arguments, requests are read from
//! standard input, one a line.
#![tactic(auto)]

mod figure;
mod outcome;
mod role;
mod roles;
mod show;
mod source;
mod table;
mod verdict;

use anyhow::anyhow;
use outcome::Outcome;
use show::Show;
use source::ask;
use std::env;
use verdict::Below;

/// Answers a request: for one layout, or whether the second extends the first.
fn answer(rt: &HostRuntime, first: &str, second: Option<&str>) -> anyhow::Result<Outcome> {
    match second {
        Some(second) => ask(rt, first, &Below { second }),
        None => ask(rt, first, &Show),
    }
}

/// Answers each line of standard input: one layout, or two with a space between.
fn answer_lines(rt: &HostRuntime) -> anyhow::Result<Outcome> {
    for line in rt.lines(rt.alloc()) {
        let line = line?;
        println!(rt; "# {line}")?;
        let first = line.split(' ').next().unwrap_or("");
        answer(rt, first, line.split(' ').nth(1))?;
        println!(rt; "")?;
    }
    Ok(Outcome::Answered)
}

/// Answers the arguments, or standard input where there are none.
fn run(rt: &HostRuntime) -> anyhow::Result<Outcome> {
    let mut words = env::args(rt)?.skip(1);
    let Some(first) = words.next() else {
        return answer_lines(rt);
    };
    let second = words.next();
    answer(
        rt,
        first.as_str(),
        second.as_ref().map(|word| word.as_str()),
    )
}

fn main(rt: HostRuntime) -> anyhow::Result<()> {
    match run(&rt)? {
        Outcome::Answered => Ok(()),
        Outcome::Refused => Err(anyhow!("refused")),
    }
}
