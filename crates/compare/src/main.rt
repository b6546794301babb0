//! Compares boards. The arguments are groups of four names: of an old blob and the list of calls made on its board, then of a new blob
//! and the list for its board. Each comparison runs both lists and prints every answer, how each device of either tree stands after the
//! run, and the devices for which the guest's timekeeping changed. A thin program over `boards`.
#![tactic(auto)]

use std::io;
use std::io::Write;

mod answers;
mod comparison;
mod device_lines;
mod files;
mod parts;
mod sides;
mod standing;
mod verdict;

use files::read_comparisons;

// Every file is read, and every list of calls is found to be one, before the first comparison is made.
fn main(rt: HostRuntime) -> io::Result<()> {
    for comparison in read_comparisons(&rt)? {
        let text = comparison.text(rt.alloc())?;
        rt.stdout().write_all(text.as_slice())?;
    }
    Ok(())
}
