//! The rules by which the tokens of a structure block form one tree, and the walk that tests them.
//! The walk accepts exactly the tokens of one tree: specs/Rules.antt has the walk, specs/Trees.antt the tree.
#![tactic(auto)]

pub mod walk;
