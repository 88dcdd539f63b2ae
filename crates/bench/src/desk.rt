//! What answers lines: a bench with its table, and the text of its answers.
ghost use Rattle.std.specs.Prelude.{◌≡◌, [], string_bytes, OnOk};
ghost use Rattle.bench.specs.Sessions.{AnswersLine};

use crate::print::push_reply;
use crate::state::Bench;
use frame::row::Row;
use layout::lawful::MOST_ITEMS;
use std::alloc::{AllocError, Global};

/// A bench, the rows that a read fills, and the text of the answers that are not written yet.
#[derive(Drop)]
pub struct Desk {
    pub bench: Bench,
    pub rows: [Row; MOST_ITEMS],
    pub text: String,
}

impl Desk {
    /// A desk at its start: no packet, no text.
    pub(crate) fn new(heap: Global) -> Desk
        ensures packet { result.bench.count ≡ 0 }
        ensures text { string_bytes result.text ≡ [] }
    {
        Desk {
            bench: Bench::new(),
            rows: [Row::default(); MOST_ITEMS],
            text: String::new(heap),
        }
    }

    /// Answers a line.
    pub(crate) fn answer(&mut self, line: &[u8]) -> Result<(), AllocError>
        ensures { OnOk result (AnswersLine line.now self.old self.new) }
    {
        let reply = self.bench.answer(line, &mut self.rows);
        push_reply(&mut self.text, reply, &self.rows)
    }
}
