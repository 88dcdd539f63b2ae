//! What all layers share: refusals, and numbers in octets.
#![tactic(auto)]

pub mod layer;
pub mod number;
pub mod question;
pub mod refusal;
