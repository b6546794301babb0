// How the devices of a board stand after a list of events.
use board_text::law::{changes, own_steps};
use board_text::text::{RecordText, SenseText};
use boards::board::Board;
use controller::interface::Controller;
use history::call::Event;
use history::device::{claims, kept_up};
use line::row::{Row, Sense, Step};
use std::alloc::{AllocError, Global};
use std::{fmt, io};

// How a device stands.
#[derive(Drop)]
pub struct Standing {
    sense: Sense,
    claims: usize,
    kept_up: bool,
    record: Row,
    // Its own steps, in order, and those that are changes.
    steps: Vec<Step>,
    changes: Vec<Step>,
}

// Each device of a board, by route number.
pub fn standings<A: Controller, B: Controller, C: Controller, D: Controller>(
    heap: Global,
    board: &Board<A, B, C, D>,
    events: &[Event],
) -> Result<Vec<Standing>, AllocError> {
    let mut standings = Vec::new(heap);
    for i in 0..board.count() {
        // Every route below the count has a device and a record.
        let (Ok(device), Ok(record)) = (board.device(i), board.record(i)) else {
            continue;
        };
        let sense = device.route.sense;
        standings.push(Standing {
            sense,
            claims: claims(i, events),
            kept_up: kept_up(sense, i, events),
            record: Row::from(record),
            steps: own_steps(heap, i, events)?,
            changes: changes(heap, i, events)?,
        })?;
    }
    Ok(standings)
}

// A line for each device.
pub fn print_standings(rt: &HostRuntime, side: &str, standings: &[Standing]) -> io::Result<()> {
    for (i, standing) in standings.iter().enumerate() {
        println!(rt; "{side} {i} {standing}")?;
    }
    Ok(())
}

impl fmt::Display for Standing {
    fn fmt<W: fmt::Write>(&self, f: &mut fmt::Formatter<W>) -> fmt::Result {
        let kept_up = if self.kept_up { "yes" } else { "no" };
        write!(
            f,
            "{} claims {} kept {kept_up} record {}",
            SenseText(self.sense),
            self.claims,
            RecordText(self.record)
        )
    }
}

// A line for each two devices of one sense: whether their own steps, records, changes and claims are the same.
pub fn print_pairs(rt: &HostRuntime, old: &[Standing], new: &[Standing]) -> io::Result<()> {
    for (i, one) in old.iter().enumerate() {
        for (j, other) in new.iter().enumerate() {
            if one.sense == other.sense {
                println!(rt; "old {i}, new {j}: {}", Both(one, other))?;
            }
        }
    }
    Ok(())
}

// Two devices.
#[derive(Drop)]
struct Both<'a>(&'a Standing, &'a Standing);

impl fmt::Display for Both<'_> {
    fn fmt<W: fmt::Write>(&self, f: &mut fmt::Formatter<W>) -> fmt::Result {
        let Both(one, other) = self;
        write!(
            f,
            "steps {}, record {}, changes {}, claims {}",
            same(one.steps == other.steps),
            same(one.record == other.record),
            same(one.changes == other.changes),
            same(one.claims == other.claims)
        )
    }
}

fn same(is_same: bool) -> &'static str {
    if is_same { "same" } else { "other" }
}
