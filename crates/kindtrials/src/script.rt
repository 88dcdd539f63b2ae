//! Sessions: a line `layout` with the name of a layout, then steps on an extension of it; `up` goes on with an extension of that.
ghost use Rattle.std.specs.Prelude.{◌≤◌, length, IfOk};

use crate::build::run_level;
use extension::extension::Extension;
use layout::named::NamedLayout;
use layout::table::Published;
use layoutfile::file::FileLayout;
use std::fs;

/// Runs a session over a layout, at most three levels of it; answers the lines behind it. That these are no more than before, here and
/// in the two that hand them on, is why the loop over sessions ends.
fn run_over<'a, N: NamedLayout + Drop>(
    rt: &HostRuntime,
    lines: &'a [String],
    layout: N,
) -> anyhow::Result<&'a [String]>
    ensures { IfOk result (λ rest. length rest.now ≤ length lines.now) }
{
    let mut first = Extension::new(layout);
    let rest = run_level(rt, lines, &mut first)?;
    let mut second = Extension::new(first);
    let rest = run_level(rt, rest, &mut second)?;
    let mut third = Extension::new(second);
    run_level(rt, rest, &mut third)
}

/// Runs the session over the layout that a word names; answers the lines behind it.
fn run_session<'a>(
    rt: &HostRuntime,
    lines: &'a [String],
    word: &str,
) -> anyhow::Result<&'a [String]>
    ensures { IfOk result (λ rest. length rest.now ≤ length lines.now) }
{
    if let Ok(layout) = word.parse::<Published>() {
        return run_over(rt, lines, layout);
    }
    let octets = fs::read(rt, word)?;
    run_over(rt, lines, FileLayout::new(&octets))
}

/// Runs each session of standard input.
pub(crate) fn run_sessions(rt: &HostRuntime) -> anyhow::Result<()> {
    let mut lines = Vec::new(rt.alloc());
    for read in rt.lines(rt.alloc()) {
        lines.push(read?)?;
    }
    let mut rest = lines.as_slice();
    while let Some((line, behind)) = rest.split_first() {
        let Some(word) = line.strip_prefix("layout ") else {
            println!(rt; "{line}: no layout")?;
            return Ok(());
        };
        println!(rt; "layout {word}")?;
        rest = run_session(rt, behind, word)?;
    }
    Ok(())
}
