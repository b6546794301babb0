//! A status multiplexer of 1 to 32 lines: a controller over a table of following lines that offers the lowest-numbered
//! one that waits. The order is in specs/Offers.antt, as a definition and above it in words.
#![tactic(auto)]

pub mod mux;
pub mod mux_width;
