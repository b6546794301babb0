//! The interface of an interrupt controller: questions, calls on one line, claim and reset, with what they mean.
//! The meaning is the lines, each open or wired, the record of each open line, and the offer (specs/Meaning.antt). Every call is
//! held to it; two laws hold of every controller; and no call asks anything of its caller.
#![tactic(auto)]

pub mod call;
pub mod interface;
