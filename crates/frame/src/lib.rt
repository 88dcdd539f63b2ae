//! The frame by a layout: read, with questions 1 to 13.
#![tactic(auto)]

pub mod fault;
mod fill;
mod frame;
mod item;
mod open;
pub mod read;
pub mod row;
mod survey;
