//! Two controllers cascaded: the child's offer is the level of one line of the parent. The pair is itself a controller, so pairs
//! cascade further, as parent and as child. What a pair means, from its parts' meanings, and the tie between its parts are in
//! specs/Pairs.antt.
#![tactic(auto)]

pub mod fault;
pub mod pair;
