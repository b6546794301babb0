//! Properties of an opened tree's nodes, checked when they are read: one cell in a range, whole cells, presence, the two counts of
//! a node, and the node of a phandle. A wrong length or value is 8, with the places of the node and the property.
//! The definitions are in specs/.
#![tactic(auto)]

pub mod counts;
pub mod property;
