//! Shows that boards and their law take controllers of another make: what the question answers of trees and parts, boards that are run,
//! and comparisons of two boards. Its trees and lists of events are in data/, and the text that it has to print is written by the model
//! (tools/model).
#![tactic(auto)]

use std::io;

mod comparisons;
mod files;
mod make;
mod questions;
mod runs;
mod shapes;
mod standing;
mod text;

use comparisons::compare_all;
use questions::ask_all;
use runs::run_all;

fn main(rt: HostRuntime) -> io::Result<()> {
    ask_all(&rt)?;
    run_all(&rt)?;
    compare_all(&rt)
}
