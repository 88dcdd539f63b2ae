//! Cases that no line of the bench reaches: other layouts, other tables, other buffers. Each prints a line.
#![tactic(auto)]

mod layouts;
mod listed;
mod packets;
mod tables;
mod writing;

fn main(rt: HostRuntime) -> anyhow::Result<()> {
    layouts::run(&rt)?;
    packets::run(&rt)?;
    tables::run(&rt)?;
    writing::run(&rt)?;
    Ok(())
}
