//! What the programs that read devicetree blobs share: a node's path, and why a listing ends early. It is a part of the programs,
//! and allocates.
#![tactic(auto)]

pub mod path;
pub mod stop;
