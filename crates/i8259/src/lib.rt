//! The 8259A: a controller over a table of eight edge lines that offers the lowest-numbered one that waits, unless a
//! lower one is in service. The order is in specs/Offers.antt, as a definition and above it in words.
#![tactic(auto)]

pub mod chip;
