//! What a frame's items are: items, the layout interface, the published layouts, and the questions put to a layout.
#![tactic(auto)]

pub mod entry;
pub mod fault;
pub mod item;
pub mod items;
pub mod kind;
pub mod lawful;
pub mod layout;
pub mod maker;
pub mod name;
pub mod named;
pub mod published;
pub mod source;
pub mod table;
