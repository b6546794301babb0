//! Why a devicetree is refused: places in a blob, the faults of its header, its tokens, and its routes.
//! A higher layer's enum holds the lower layer's fault whole. One total definition for each enum gives layer, number and the
//! two places of every case (specs/Reports.antt), and the enum's `Report` equals it.
#![tactic(auto)]

pub mod fault;
pub mod place;
pub mod report;
