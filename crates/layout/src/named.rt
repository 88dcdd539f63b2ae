//! Layouts whose items have names, for printing.
ghost use Rattle.std.specs.Prelude.{◌≡◌, ℕ, ◌≤◌, List, [], ◌∷◌, length};
ghost use Rattle.layout.specs.Items.{name_at};

use crate::layout::Layout;
use crate::name::Name;

/// A layout that also gives every item a name.
pub trait NamedLayout: Layout {
    /// The names, one for each item.
    ghost names: { Self → List (List ℕ) };

    /// The name of item number `i`; zeros past the end.
    fn name(&self, i: usize) -> Name
        ensures value { result.letters ≡ name_at (names self.now) i }
        ensures past { length (Self.meaning self.now).items ≤ i → result.letters ≡ 0 ∷ 0 ∷ 0 ∷ [] }
        ensures each { length (names self.now) ≡ length (Self.meaning self.now).items };
}
