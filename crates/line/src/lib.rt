//! The record of one line, which is also that of the device at it, and the steps by which calls change it.
//! A `Row` is plain data; a `Line` is a record that can exist, and each step gives a whole new one. One table in
//! specs/Steps.antt says what each step makes of a row, and every step here equals it.
#![tactic(auto)]

pub mod read;
pub mod record;
pub mod row;
pub mod step;
