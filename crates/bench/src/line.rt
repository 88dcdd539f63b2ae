//! A line of the bench: a letter and its fields, with single spaces between.
ghost use Rattle.std.specs.Prelude.{◌≡◌, ℕ, List, ◌∷◌, MatchOption, ◌≢◌};
ghost use Rattle.bench.specs.Lines.{IsCommand, IsNoCommand, layout_text};
ghost use Rattle.bench.specs.Tests.{is_hex_digit, are_hex_digits, are_hex_pairs};

use layout::table::Published;
use packet::octets::MOST_OCTETS;

/// A command: keep the packet that hexadecimal digits write, or read the packet by a layout.
#[derive(Clone, Copy)]
pub enum Command<'a> {
    Packet { digits: &'a [u8] },
    Read { layout: Published },
}

/// The letter that a line begins with, and what follows the single space behind it.
fn letter_and_fields(line: &[u8]) -> Option<(u8, &[u8])>
    ensures { MatchOption result ((c : ℕ) (cs : List ℕ) → line.now ≢ c ∷ 32 ∷ cs) (λ p. line.now ≡ p.0 ∷ 32 ∷ p.1.now) }
{
    match line {
        [letter, b' ', fields @ ..] => Some((*letter, fields)),
        _ => None,
    }
}

/// The layout that a field names: `1` to `4`. These are the bench's own names; `FromStr` reads the layouts' names.
fn layout_in(field: &[u8]) -> Option<Published>
    ensures { MatchOption result ((l : Published) → field.now ≢ layout_text l) (λ l. field.now ≡ layout_text l) }
{
    match field {
        [b'1'] => Some(Published::Dl16),
        [b'2'] => Some(Published::Ul161),
        [b'3'] => Some(Published::Ul163),
        [b'4'] => Some(Published::Ul19),
        _ => None,
    }
}

/// Whether an octet is a hexadecimal digit in capitals.
// Two patterns: as one they are compiled to branches.
fn is_digit(octet: u8) -> bool
    ensures { result ≡ is_hex_digit octet }
{
    matches!(octet, b'0'..=b'9') || matches!(octet, b'A'..=b'F')
}

/// Whether each octet is a hexadecimal digit in capitals.
fn are_digits(field: &[u8]) -> bool
    ensures { result ≡ are_hex_digits field.now }
{
    field.iter().all(|octet| is_digit(*octet))
}

/// Whether a field is 1 to 9,216 hexadecimal pairs.
fn are_pairs(field: &[u8]) -> bool
    ensures { result ≡ are_hex_pairs field.now }
{
    let len = field.len();
    len > 0 && len % 2 == 0 && len <= 2 * MOST_OCTETS && are_digits(field)
}

/// The command that a line is, if it is one.
#[tactic(auto, using(crate::proofs::Texts::packet_told))]
pub fn parse(line: &[u8]) -> Option<Command<'_>>
    ensures { MatchOption result (IsNoCommand line.now) (λ c. IsCommand line.now c) }
{
    let (letter, fields) = letter_and_fields(line)?;
    // A letter is read into a command here, and nothing is done by it: no closures are wanted.
    match letter {
        b'p' => are_pairs(fields).then_some(Command::Packet { digits: fields }),
        b'r' => layout_in(fields).map(|layout| Command::Read { layout }),
        _ => None,
    }
}
