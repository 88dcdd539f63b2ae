//! Whether one layout extends another, in words.
use crate::outcome::Outcome;
use crate::source::{Request, ask, refuse};
use layout::layout::Layout;
use layout::named::NamedLayout;
use pile::extends::extends;
use pile::fault::ExtendsFault;

/// Asks whether a second layout extends the one asked.
#[derive(Clone, Copy)]
pub(crate) struct Below<'a> {
    pub second: &'a str,
}

/// Asks whether the layout asked extends a lower one.
#[derive(Drop)]
pub(crate) struct Above<'a, L: Layout> {
    pub first: &'a str,
    pub lower: &'a L,
}

/// Prints where the upper layout fails to extend the lower. No `Display`: two of the faults print a line with a layout's name.
fn explain(
    rt: &HostRuntime,
    first: &str,
    second: &str,
    fault: ExtendsFault,
) -> anyhow::Result<Outcome> {
    print!(rt; "{second} does not extend {first}: ")?;
    match fault {
        ExtendsFault::Lower(fault) => {
            println!(rt; "the lower layout is not lawful")?;
            refuse(rt, first, fault.into())?;
        }
        ExtendsFault::Upper(fault) => {
            println!(rt; "the upper layout is not lawful")?;
            refuse(rt, second, fault.into())?;
        }
        ExtendsFault::PduType { lower, upper } => {
            println!(rt; "PDU type {upper} over {lower}")?;
        }
        ExtendsFault::Missing { item } => println!(rt; "item {item} is missing")?,
        ExtendsFault::Unlike { item, part } => {
            println!(rt; "item {item} has another {part}")?;
        }
        ExtendsFault::Stray { item } => println!(rt;
            "item {item} has no governor, or hangs on a bit that is named below"
        )?,
    }
    Ok(Outcome::Refused)
}

impl<'a> Request for Below<'a> {
    fn answer<N: NamedLayout>(
        &self,
        rt: &HostRuntime,
        word: &str,
        layout: &N,
    ) -> anyhow::Result<Outcome> {
        let above = Above {
            first: word,
            lower: layout,
        };
        ask(rt, self.second, &above)
    }
}

impl<'a, L: Layout> Request for Above<'a, L> {
    fn answer<N: NamedLayout>(
        &self,
        rt: &HostRuntime,
        word: &str,
        layout: &N,
    ) -> anyhow::Result<Outcome> {
        let first = self.first;
        match extends(self.lower, layout) {
            Ok(()) => {
                println!(rt; "{word} extends {first}")?;
                Ok(Outcome::Answered)
            }
            Err(fault) => explain(rt, first, word, fault),
        }
    }
}
