//! The steps of a level, done.
ghost use Rattle.std.specs.Prelude.{◌≤◌, length, IfOk};

use crate::show::{show_items, show_reading};
use crate::step::{Step, step_in};
use base::refusal::Refusal;
use extension::extension::Extension;
use extension::fault::BuildFault;
use layout::layout::Layout;
use layout::named::NamedLayout;

/// Prints a refusal: number, layer, place and origin.
pub(crate) fn print_no(rt: &HostRuntime, refusal: Refusal) -> anyhow::Result<()> {
    let number = refusal.question.number();
    let layer = refusal.question.layer().number();
    let place = refusal.place;
    let origin = refusal.origin.unwrap_or(0);
    println!(rt; "NO {number} {layer} {place} {origin}")?;
    Ok(())
}

/// Prints what a building step answered.
fn print_step(
    rt: &HostRuntime,
    answer: Result<(), BuildFault>,
    count: usize,
) -> anyhow::Result<()> {
    match answer {
        Ok(()) => {
            println!(rt; "OK {count}")?;
            Ok(())
        }
        Err(fault) => print_no(rt, fault.into()),
    }
}

/// Does a step.
fn do_step<N: NamedLayout>(
    rt: &HostRuntime,
    step: Step<'_>,
    extension: &mut Extension<N>,
) -> anyhow::Result<()> {
    match step {
        Step::Add(entry) => {
            let answer = extension.add(entry);
            print_step(rt, answer, extension.count())
        }
        Step::NameBits { item, bits } => {
            let answer = extension.name_bits(item, bits);
            print_step(rt, answer, extension.count())
        }
        Step::Show => show_items(rt, extension),
        Step::Read { digits } => show_reading(rt, extension, digits),
    }
}

/// Does the steps of a level, up to a line that is none; answers the lines behind it, or from it on where it begins a session.
pub(crate) fn run_level<'a, N: NamedLayout>(
    rt: &HostRuntime,
    lines: &'a [String],
    extension: &mut Extension<N>,
) -> anyhow::Result<&'a [String]>
    ensures { IfOk result (λ rest. length rest.now ≤ length lines.now) }
{
    let mut rest = lines;
    while let Some((line, behind)) = rest.split_first() {
        match step_in(line.as_str())? {
            Some(step) => do_step(rt, step, extension)?,
            None if line.as_str() == "up" => {
                println!(rt; "up")?;
                return Ok(behind);
            }
            None => return Ok(rest),
        }
        rest = behind;
    }
    Ok(rest)
}
