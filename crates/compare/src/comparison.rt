// A comparison: what is handed in, and the text of what comes of it.
use crate::answers::write_run;
use crate::device_lines::write_devices;
use crate::sides::{Side, run_both};
use listing::stop::Stop;
use std::alloc::Global;
use std::io;

// An old and a new side.
#[derive(Drop)]
pub struct Comparison {
    pub old: Side,
    pub new: Side,
}

impl Comparison {
    // Runs both sides; the text of both runs, of the devices, and of the guest's timekeeping.
    pub fn text(self, heap: Global) -> io::Result<Vec<u8>> {
        let (old, new) = run_both(heap, self.old, self.new).map_err(failed)?;
        let mut text = Vec::new(heap);
        write_run(&mut text, "old", &old)?;
        write_run(&mut text, "new", &new)?;
        write_devices(heap, &mut text, &old, &new)?;
        Ok(text)
    }
}

// No node of an opened tree is refused, so that only memory can be lacking.
fn failed(stop: Stop) -> io::Error {
    match stop {
        Stop::Fault(_) => io::Error::from(io::ErrorKind::InvalidData),
        Stop::Memory => io::Error::from(io::ErrorKind::OutOfMemory),
    }
}
