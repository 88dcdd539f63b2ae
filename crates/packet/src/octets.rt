//! Where the octets of a G-PDU stand (3GPP TS 29.281), named once.

/// The octets before the first extension header.
pub const FIRST_OCTETS: usize = 12;

/// The longest packet.
pub const MOST_OCTETS: usize = 9216;

/// Version (bits 7 to 5), protocol type (bit 4) and E, S and PN (bits 2 to 0).
pub const FLAGS: usize = 0;

/// The message type.
pub const MESSAGE_TYPE: usize = 1;

/// The length, in two octets.
pub const LENGTH: usize = 2;

/// The octets that the length does not count: the flags, the message type, the length itself and the TEID.
pub const UNCOUNTED: usize = 8;

/// The type of the first extension header.
pub const NEXT_TYPE: usize = 11;

/// Bits 7 to 4 of the flags: version 1, protocol type GTP.
pub const GTP_1: u8 = 3;

/// The flag E: extension headers follow.
pub const EXTENDED: u8 = 4;

/// The message type of a G-PDU.
pub const G_PDU: u8 = 255;

/// The header type of the PDU session container.
pub const CONTAINER: u8 = 133;
