//! A session: what was read so far of a line, and what is to be written. It is the same in whatever parts the input comes.
ghost use Rattle.std.specs.Prelude.{◌≡◌, ℕ, List, [], ◌++◌, string_bytes, OnOk};
ghost use Rattle.bench.specs.Inputs.{NoEnd};
ghost use Rattle.bench.specs.Sessions.{AnswersLine, AnswersLines, kept, last_line, Fed};

use crate::desk::Desk;
use crate::input::next_line;
use arrayvec::ArrayVec;
use packet::octets::MOST_OCTETS;
use std::alloc::{AllocError, Global};

/// How much is kept of a line: one octet more than the longest command has, which is enough to see that a longer line is none.
pub const MOST_KEPT: usize = 2 + 2 * MOST_OCTETS + 1;

/// A desk, and the start of a line whose end has not come yet.
#[derive(Drop)]
pub struct Session {
    pub desk: Desk,
    pub line: ArrayVec<u8, MOST_KEPT>,
}

/// Adds to the start of a line as much as is kept of it.
#[tactic(auto, using(crate::proofs::Keeping::kept_part))]
fn keep(line: &mut ArrayVec<u8, MOST_KEPT>, part: &[u8])
    ensures { line.new.items ≡ kept (line.old.items ++ part.now) }
{
    let fits = line.remaining_capacity().min(part.len());
    // It cannot fail: no more is taken than there is room for.
    line.try_extend_from_slice(&part[..fits]).ok();
}

impl Session {
    /// A session at its start: no packet, no line begun, no text.
    pub(crate) fn new(heap: Global) -> Session
        ensures packet { result.desk.bench.count ≡ 0 }
        ensures text { string_bytes result.desk.text ≡ [] }
        ensures line { result.line.items ≡ [] }
    {
        Session {
            desk: Desk::new(heap),
            line: ArrayVec::new(),
        }
    }

    /// Answers the line that was kept.
    fn end_kept(&mut self) -> Result<(), AllocError>
        ensures answers { OnOk result (AnswersLine self.old.line.items self.old.desk self.new.desk) }
        ensures line { OnOk result (self.new.line.items ≡ []) }
    {
        let answered = self.desk.answer(&self.line);
        self.line.clear();
        answered
    }

    /// Answers the line that ends with `part`.
    fn end_line(&mut self, part: &[u8]) -> Result<(), AllocError>
        ensures answers { OnOk result (AnswersLine (self.old.line.items ++ part.now) self.old.desk self.new.desk) }
        ensures line { OnOk result (self.new.line.items ≡ []) }
    {
        if self.line.is_empty() {
            return self.desk.answer(part);
        }
        keep(&mut self.line, part);
        self.end_kept()
    }

    /// Answers each line that ends in a part of the input, and keeps the start of the next.
    #[tactic(auto, using(crate::proofs::Feeding::feeding_none))]
    pub(crate) fn feed(&mut self, input: &[u8]) -> Result<(), AllocError>
        ensures { (l : List ℕ) → NoEnd l → self.old.line.items ≡ kept l → OnOk result (Fed l input.now self.old self.new) }
    {
        let mut rest = input;
        while let Some((line, behind)) = next_line(rest) {
            self.end_line(line)?;
            rest = behind;
        }
        keep(&mut self.line, rest);
        Ok(())
    }

    /// Answers the line that has begun, if one has: the last line may lack its end.
    pub(crate) fn finish(&mut self) -> Result<(), AllocError>
        ensures { (l : List ℕ) → self.old.line.items ≡ kept l → OnOk result (AnswersLines (last_line l) self.old.desk self.new.desk) }
    {
        if self.line.is_empty() {
            return Ok(());
        }
        self.end_kept()
    }
}
