//! The bench's answer to a line.
ghost use Rattle.std.specs.Prelude.{◌≡◌};
ghost use Rattle.bench.specs.Replies.{Answered, shown_reply, shown_table};

use crate::digits::decode;
use crate::line::{Command, parse};
use crate::reply::Reply;
use crate::state::Bench;
use base::question::Question;
use base::refusal::Refusal;
use frame::read::read;
use frame::row::Row;
use layout::table::Published;

/// The refusal of a line that is no command.
const NO_COMMAND: Refusal = Refusal {
    question: Question::Command,
    place: 0,
    origin: None,
};

impl Bench {
    /// Reads the packet by a layout into the table.
    fn show(&self, layout: Published, rows: &mut [Row]) -> Result<Reply, Refusal>
        ensures reply { result ≡ shown_reply layout self.now rows.old }
        ensures table { rows.new ≡ shown_table layout self.now rows.old }
    {
        let reading = read(&layout, &self.buffer, self.count, rows)?;
        Ok(Reply::Shown {
            layout,
            present: reading.present,
        })
    }

    /// Answers a line; the rows of a read are put into the table.
    pub fn answer(&mut self, line: &[u8], rows: &mut [Row]) -> Result<Reply, Refusal>
        ensures { Answered line.now self.old self.new rows.old rows.new result }
    {
        match parse(line).ok_or(NO_COMMAND)? {
            Command::Packet { digits } => {
                let count = decode(digits, &mut self.buffer);
                self.count = count;
                Ok(Reply::Kept { count })
            }
            Command::Read { layout } => self.show(layout, rows),
        }
    }
}

#[cfg(test)]
mod tests {
    use super::*;
    use std::test::Fail;

    // The bench prints no layer, so it is looked at here.
    #[test]
    fn other_lines_are_refused_in_layer_5(rt: HostRuntime) -> Result<(), Fail> {
        let mut rows = [Row::default(); 1];
        let mut bench = Bench::new();
        let Err(refusal) = bench.answer(b"x 1", &mut rows) else {
            return Err(Fail::new("a line that is no command was answered"));
        };
        assert_eq!(rt; refusal.question.number(), 29);
        assert_eq!(rt; refusal.question.layer().number(), 5);
        assert_eq!(rt; refusal.place, 0);
        Ok(())
    }
}
