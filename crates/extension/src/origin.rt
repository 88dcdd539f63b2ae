//! The extension kind's numbers.

/// The origin number of extensions.
pub const EXTENSION: u8 = 3;

/// The most items that an extension adds.
pub const MOST_ADDED: usize = 16;
