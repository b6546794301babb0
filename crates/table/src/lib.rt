//! The lines of a controller as a table of plain rows, of which a call makes the line that it needs; a controller over a
//! table that offers its lines in any order; and the numbers from 1 to a constant. Every line of a table is open. Each call is
//! pinned by what it makes of the list of records; the definitions are in specs/Tables.antt, and what every order shares is in
//! specs/Kinds.antt.
#![tactic(auto)]

pub mod one_to;
pub mod over;
pub mod rows;
