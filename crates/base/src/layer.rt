//! The layers: what questions are put to.
ghost use Rattle.std.specs.Prelude.{◌≡◌, Some};
ghost use Rattle.base.specs.Answers.{layer_number};
ghost use Rattle.base.specs.Words.{layer_words};

use std::fmt;

/// What a question is put to.
#[derive(Clone, Copy, PartialEq, Eq, Debug)]
pub enum Layer {
    Layout = 1,
    Packet = 2,
    Frame = 3,
    Call = 4,
    Bench = 5,
}

impl Layer {
    /// The layer's number: 1 layout, 2 packet, 3 frame, 4 call, 5 bench.
    pub fn number(self) -> u8
        ensures { result ≡ layer_number self }
    {
        self as u8
    }
}

/// The layer's name.
impl fmt::Display for Layer {
    ghost output = { λ layer. Some (layer_words layer) };

    fn fmt<W: fmt::Write>(&self, f: &mut fmt::Formatter<W>) -> fmt::Result {
        f.write_str(match self {
            Layer::Layout => "layout",
            Layer::Packet => "packet",
            Layer::Frame => "frame",
            Layer::Call => "call",
            Layer::Bench => "bench",
        })
    }
}
