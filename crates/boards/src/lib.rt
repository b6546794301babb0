//! A board: the routes of a tree's plan over four controllers of any make, cascaded as the plan says, with its calls by route number; and
//! the law that holds between any two boards, whatever their trees, their controllers and their lists of calls. The definitions are in specs/.
#![tactic(auto)]

pub mod board;
pub mod device;
mod devices;
pub mod law;
pub mod parts;
