//! Lines in what was read.
ghost use Rattle.std.specs.Prelude.{◌≡◌, ℕ, ◌<◌, ◌≤◌, ◌∷◌, ◌++◌, length, MatchOption, ◌≢◌, slice_index};
ghost use Rattle.bench.specs.Inputs.{NoEnd};

/// The first line without its end, and what is behind it; none where no line ends.
pub(crate) fn next_line(input: &[u8]) -> Option<(&[u8], &[u8])>
    ensures { MatchOption result (NoEnd input.now) (λ p. (input.now ≡ p.0.now ++ 10 ∷ p.1.now) × NoEnd p.0.now) }
{
    let end = input.iter().position(|octet| *octet == b'\n')?;
    Some((&input[0..end], &input[end + 1..]))
}
