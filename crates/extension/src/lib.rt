//! The extension kind of layout: any layout, with bits named and items added.
#![tactic(auto)]

pub mod additions;
pub mod build;
pub mod extended;
pub mod extension;
pub mod fault;
pub mod origin;
pub mod parts;
