//! A refusal: the question whose answer was no, the place, and the origin of the layout asked.
ghost use Rattle.std.specs.Prelude.{Some};
ghost use Rattle.base.specs.Words.{refusal_words};

use crate::question::Question;
use std::fmt;

/// A refusal: a question, and the place where its answer is no; what the place counts belongs to the question.
/// The origin is the kind of the layout that was asked, where the question is put to a layout. Faults end in a literal of the
/// three, which is as plain as a call.
#[derive(Clone, Copy, PartialEq, Eq, Debug)]
pub struct Refusal {
    pub question: Question,
    pub place: usize,
    pub origin: Option<u8>,
}

/// A refusal for people: its number, its layer, its place, and what was asked.
impl fmt::Display for Refusal {
    ghost output = { λ refusal. Some (refusal_words refusal) };

    fn fmt<W: fmt::Write>(&self, f: &mut fmt::Formatter<W>) -> fmt::Result {
        let question = self.question;
        let number = question.number();
        let layer = question.layer();
        let level = layer.number();
        let place = self.place;
        match self.origin {
            Some(origin) => write!(
                f,
                "refusal {number}, layer {level} ({layer} of origin {origin}), place {place}: {question}"
            ),
            None => write!(
                f,
                "refusal {number}, layer {level} ({layer}), place {place}: {question}"
            ),
        }
    }
}
