//! Histories: the calls of a board with their answers, and what a list of them tells of one device, read off the list
//! alone. Every question here equals its definition, and the laws that hold of all lists stand on the calls.
//! specs/Own.antt and specs/Kept.antt have the notions of one device, specs/Law.antt those of boards.
#![tactic(auto)]

pub mod call;
pub mod device;
pub mod laws;
