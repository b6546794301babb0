//! A devicetree that was opened: its header is good, its tokens form one tree, and its phandles are good and distinct.
//! `Tree` is made by opening only. In blob order `Tree::nodes` goes over its nodes, and `Tree::properties` over a node's properties;
//! other calls give a property by name and the node of a phandle. Each call equals a definition in specs/; opening is held to a
//! relation too, specs/Opening.antt.
#![tactic(auto)]

pub mod node;
pub mod node_properties;
pub mod nodes;
pub mod tree;
