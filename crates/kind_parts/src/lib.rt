//! The controllers that a tree's plan asks for, of the kinds of this repository. The definitions are in specs/Makes.antt.
#![tactic(auto)]

pub mod of_kind;
pub mod of_plan;
