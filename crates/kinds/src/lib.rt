//! The kinds of controller that a board takes: what names them, what is read of their nodes, and how their specifiers are read.
//! The definitions are in specs/.
#![tactic(auto)]

pub mod binding;
pub mod kind;
pub mod reading;
