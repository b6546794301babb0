//! At a nexus: the cells to match, the mask, and the first row of the map that matches them.
//! The definitions are in specs/.
#![tactic(auto)]

pub mod ready;
pub mod rows;
