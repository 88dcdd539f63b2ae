//! Write: a packet made of rows, with the frame in plain form. Questions 1 to 4, 22 and 21.
#![tactic(auto)]

pub mod check;
pub mod fault;
pub mod put;
pub mod record;
pub mod write;
