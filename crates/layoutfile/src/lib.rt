//! The file kind of layout: what the octets of a layout file write down, read where they lie.
#![tactic(auto)]

pub mod check;
pub mod decode;
pub mod fault;
pub mod file;
pub mod filed;
pub mod origin;
