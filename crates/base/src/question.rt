//! The questions. A refusal is a no to one of them.
ghost use Rattle.std.specs.Prelude.{◌≡◌, Some};
ghost use Rattle.base.specs.Answers.{question_number, question_layer};
ghost use Rattle.base.specs.Words.{question_words};

use crate::layer::Layer;
use std::fmt;

/// A question that a call puts; printed, it says what is asked. People know it by its number, which stays whatever questions
/// are added.
#[derive(Clone, Copy, PartialEq, Eq, Debug)]
pub enum Question {
    ItemCount = 1,
    FirstItem = 2,
    Governors = 3,
    TableRows = 4,
    PacketCount = 5,
    Flags = 6,
    MessageType = 7,
    StatedLength = 8,
    Header = 9,
    Container = 10,
    PduType = 11,
    ItemFits = 12,
    Limit = 13,
    Room = 21,
    RowFits = 22,
    FileStart = 23,
    FileSize = 24,
    Entry = 25,
    Space = 26,
    AddedGovernor = 27,
    SpareBits = 28,
    Command = 29,
}

impl Question {
    /// The question's number.
    pub fn number(self) -> u8
        ensures { result ≡ question_number self }
    {
        self as u8
    }

    /// What the question is put to.
    pub fn layer(self) -> Layer
        ensures { result ≡ question_layer self }
    {
        match self {
            Question::ItemCount
            | Question::FirstItem
            | Question::Governors
            | Question::FileStart
            | Question::FileSize
            | Question::Entry
            | Question::Space
            | Question::AddedGovernor
            | Question::SpareBits => Layer::Layout,
            Question::PacketCount
            | Question::Flags
            | Question::MessageType
            | Question::StatedLength
            | Question::Header
            | Question::Container => Layer::Packet,
            Question::PduType | Question::ItemFits | Question::Limit => Layer::Frame,
            Question::TableRows | Question::Room | Question::RowFits => Layer::Call,
            Question::Command => Layer::Bench,
        }
    }
}

/// The question in words.
impl fmt::Display for Question {
    ghost output = { λ question. Some (question_words question) };

    fn fmt<W: fmt::Write>(&self, f: &mut fmt::Formatter<W>) -> fmt::Result {
        f.write_str(match self {
            Question::ItemCount => "has the layout 1 to 64 items?",
            Question::FirstItem => "is item 0 an ungoverned bits octet with bits 7 to 4 named?",
            Question::Governors =>
                "is the governor an earlier bits octet, its bit named and not bits 7 to 4 of item 0?",
            Question::TableRows => "has the table a row for each item?",
            Question::PacketCount => "has the packet 12 to 9216 octets, all in the buffer?",
            Question::Flags => "are bits 7 to 4 of octet 0 equal to 3 and bit 2 set?",
            Question::MessageType => "is octet 1 equal to 255?",
            Question::StatedLength => "are octets 2 and 3 the count less 8?",
            Question::Header => "has the header a unit count above 0, and does it fit?",
            Question::Container => "is there exactly one PDU session container?",
            Question::PduType => "is the frame's upper half octet the PDU type?",
            Question::ItemFits => "does the item fit?",
            Question::Limit => "is the number within its limit?",
            Question::Room =>
                "has the frame at most 1018 octets, and the packet at most 9216 and no more than the buffer?",
            Question::RowFits => "does the row fit its item?",
            Question::FileStart =>
                "has the file 8 octets or more, and does it start with UPL and version 1?",
            Question::FileSize =>
                "is the file 8 octets and 16 for each of 1 to 64 entries long, its PDU type at most 15, its eighth octet 0?",
            Question::Entry => "is the entry an item, and its name three capitals or digits?",
            Question::Space => "is there space for one more item, 16 added and 64 in all?",
            Question::AddedGovernor =>
                "is the governor an earlier bits octet, its bit spare below or in an added item?",
            Question::SpareBits =>
                "are the bits to be named not none, and all spare in a bits octet below?",
            Question::Command => "is the line a command?",
        })
    }
}
