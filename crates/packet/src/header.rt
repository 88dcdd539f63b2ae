//! A header of the chain: the container with its frame, or another type with its content.

/// An extension header, with the part of the packet that it holds and the place of its first octet.
#[derive(Clone, Copy, PartialEq, Eq, Debug)]
pub enum Header<'a> {
    Container {
        frame: &'a [u8],
        place: usize,
    },
    // The type is a number and no enum: anyone may send a type that nobody here knows.
    Other {
        kind: u8,
        content: &'a [u8],
        place: usize,
    },
}
