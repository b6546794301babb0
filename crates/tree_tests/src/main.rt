//! Opens the blobs of the tables that the arguments name, and routes their interrupts where a row asks for it. Each row is a
//! blob as text with what it should give, worked out by hand from docs/FORMAT.md, docs/ROUTING.md and docs/REFUSALS.md; a row that
//! gives something else is printed.
#![tactic(auto)]

use std::io;

mod blob;
mod outcome;
mod refused;
mod routes;
mod row;
mod tables;

use tables::run_tables;

fn main(rt: HostRuntime) -> io::Result<()> {
    run_tables(&rt)
}
