//! A layout shown.
use crate::figure::draw;
use crate::outcome::Outcome;
use crate::source::{Request, refuse};
use crate::table::list;
use layout::lawful::lawful;
use layout::layout::Layout;
use layout::named::NamedLayout;

/// Asks for a layout's PDU type and items, and the frame that it describes if it is lawful.
#[derive(Clone, Copy)]
pub(crate) struct Show;

impl Request for Show {
    fn answer<N: NamedLayout>(
        &self,
        rt: &HostRuntime,
        word: &str,
        layout: &N,
    ) -> anyhow::Result<Outcome> {
        let pdu_type = layout.pdu_type();
        let count = layout.count();
        println!(rt; "{word}: PDU type {pdu_type}, {count} items\n")?;
        list(rt, layout)?;
        println!(rt; "")?;
        if let Err(fault) = lawful(layout) {
            return refuse(rt, word, fault.into());
        }
        draw(rt, layout)?;
        Ok(Outcome::Answered)
    }
}
