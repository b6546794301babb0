//! What programs do with the calls of a board: read a list of them, ask whether the law of two boards applies to a device, and print
//! calls, answers, senses and records. It is a part of the programs, and allocates. The definitions are in specs/.
#![tactic(auto)]

pub mod events;
pub mod law;
pub mod text;
