//! A frame in its packet.
ghost use Rattle.std.specs.Prelude.{◌+◌, ◌^◌, ◌<◌, length};

/// The octets of a frame, and the place of the first in the packet. The layout goes along beside it: a struct of the two would
/// only wrap them.
#[derive(Clone, Copy)]
pub(crate) struct Frame<'a> {
    pub octets: &'a [u8],
    pub place: usize,
    ghost room: { place + length octets.now < 2 ^ 64 },
}
