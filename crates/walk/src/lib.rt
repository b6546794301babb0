//! The walk of a specifier: arrival at a node, and the row that a nexus takes, by turns, through at most eight rows.
//! The definitions are in specs/.
#![tactic(auto)]

pub mod hops;
pub mod steps;
