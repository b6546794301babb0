//! Cells, parts and names in a byte string, each read with the fault to answer where it passes its block's end, and the header
//! of a devicetree blob. The definitions are in specs/.
#![tactic(auto)]

pub mod cell;
pub mod header;
pub mod name;
pub mod part;
