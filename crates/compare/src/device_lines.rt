// The text of the devices of both trees: how each stands on either board, the verdict, and for which the guest's timekeeping changed.
use crate::sides::Outcome;
use crate::standing::{Name, Standing};
use crate::verdict::Verdict;
use board_text::law::{Past, applies};
use history::call::Event;
use std::alloc::Global;
use std::io;
use std::io::Write;

// The lines of the devices, and the names of those that are not unchanged.
#[derive(Drop)]
struct DeviceLines {
    lines: Vec<u8>,
    changed: Vec<u8>,
}

// A line for each device of the old tree, then for each of the new tree alone, then one for the guest's timekeeping.
pub fn write_devices(
    heap: Global,
    text: &mut Vec<u8>,
    old: &Outcome,
    new: &Outcome,
) -> io::Result<()> {
    let mut out = DeviceLines {
        lines: Vec::new(heap),
        changed: Vec::new(heap),
    };
    for device in &old.devices {
        match named(&new.devices, &device.name) {
            Some(other) => {
                let by_law = applies(
                    heap,
                    device.past(old.events.as_slice()),
                    other.past(new.events.as_slice()),
                )?;
                out.add_pair(device, other, by_law)?;
            }
            None => out.add_one("old", device, Verdict::Removed)?,
        }
    }
    for device in &new.devices {
        if named(&old.devices, &device.name).is_none() {
            out.add_one("new", device, Verdict::Added)?;
        }
    }
    text.extend_from_slice(out.lines.as_slice())?;
    if out.changed.is_empty() {
        writeln!(text, "guest timekeeping: unchanged")
    } else {
        write!(text, "guest timekeeping changed for: ")?;
        text.extend_from_slice(out.changed.as_slice())?;
        writeln!(text)
    }
}

// The first device of this name.
fn named<'a>(devices: &'a [Standing], name: &Name) -> Option<&'a Standing> {
    devices.iter().find(|device| device.name == *name)
}

impl Standing {
    // The device in the events of the run.
    fn past<'a>(&self, events: &'a [Event]) -> Past<'a> {
        Past {
            sense: self.sense,
            device: self.route,
            events,
        }
    }
}

impl DeviceLines {
    // The line of a device that both trees have.
    fn add_pair(&mut self, old: &Standing, new: &Standing, by_law: bool) -> io::Result<()> {
        let verdict = Verdict::of(old, new);
        let law = if by_law { " by law" } else { "" };
        self.begin(&old.name, verdict)?;
        writeln!(self.lines, ": old {old}, new {new}: {verdict}{law}")
    }

    // The line of a device that one tree has.
    fn add_one(&mut self, side: &str, device: &Standing, verdict: Verdict) -> io::Result<()> {
        self.begin(&device.name, verdict)?;
        writeln!(self.lines, ": {side} {device}: {verdict}")
    }

    // Begins the line of a device, and counts it among those that are not unchanged if it is one.
    fn begin(&mut self, name: &Name, verdict: Verdict) -> io::Result<()> {
        write!(self.lines, "device ")?;
        name.write(&mut self.lines)?;
        if verdict != Verdict::Unchanged {
            if !self.changed.is_empty() {
                write!(self.changed, ", ")?;
            }
            name.write(&mut self.changed)?;
        }
        Ok(())
    }
}

impl Name {
    // The path, byte for byte, and the index.
    fn write(&self, text: &mut Vec<u8>) -> io::Result<()> {
        text.extend_from_slice(self.path.as_slice())?;
        write!(text, " {}", self.index)
    }
}
