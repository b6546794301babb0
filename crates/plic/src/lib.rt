//! The PLIC: a controller over a table of 1 to 64 gated lines, each with a priority from 1 to 7, that offers the waiting
//! line of greatest priority, among equals the lowest-numbered. The order is in specs/Offers.antt, as a definition and
//! above it in words.
#![tactic(auto)]

pub mod chip;
pub mod plic_width;
pub mod priority;
