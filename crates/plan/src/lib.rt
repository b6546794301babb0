//! The plan of a tree: its controllers, the line at which each is cascaded, and the routes of its devices; or the one refusal.
//! The definitions are in specs/.
#![tactic(auto)]

mod draft;
pub mod placed;
mod placing;
mod reading;
pub mod route;
pub mod tree_plan;
