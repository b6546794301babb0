//! The first record of a lent slice that fits a key, each kind of record having its own kind of key.
//! The answer is the place of the first record that fits, and none exactly when none fits.
//! The definitions are in specs/First.antt.
#![tactic(auto)]

pub mod keyed;
