//! One value that is an 8259A, a PLIC or a status multiplexer. It is itself a controller and means what the one in it means.
//! The definitions are in specs/Any.antt.
#![tactic(auto)]

pub mod any;
