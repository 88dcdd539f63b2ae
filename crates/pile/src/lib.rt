//! Which layout extends which: the relation between the layouts of a pile, and a call that decides it.
#![tactic(auto)]

pub mod compare;
pub mod extends;
pub mod fault;
