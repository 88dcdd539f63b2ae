//! The G-PDU around the frame: its first octets, the chain of extension headers, the one PDU session container.
#![tactic(auto)]

pub mod chain;
pub mod container;
pub mod fault;
pub mod header;
pub mod octets;
mod packet;
mod walk;
