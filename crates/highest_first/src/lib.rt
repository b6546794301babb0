//! A controller of another make, with no table under it: eight lines as plain rows in an array of its own, line 5 wired
//! inside, and of the lines that wait the highest-numbered is offered. The order is in specs/Highest.antt, as a definition and below it in
//! words.
#![tactic(auto)]

pub mod chip;
