//! What a bit of a bits octet is to a layout.

/// A bit's role.
#[derive(Clone, Copy, PartialEq, Eq, Debug)]
pub enum Role {
    /// One of bits 7 to 4 of item 0.
    PduType,
    /// It governs items; this is the first of them.
    Flag { item: usize },
    /// Named, and nothing of the above.
    Value,
    /// Not named.
    Spare,
}
