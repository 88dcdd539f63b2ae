//! Trials of the kinds of layout, for the gate: extensions are built over layouts by lines of standard input, three deep, and
//! packets are read by them.
#![tactic(auto)]

mod build;
mod script;
mod show;
mod step;

use script::run_sessions;

fn main(rt: HostRuntime) -> anyhow::Result<()> {
    run_sessions(&rt)
}
