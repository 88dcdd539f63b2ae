//! The file kind's number.

/// The origin number of layouts from files.
pub const FILE: u8 = 2;
