// How the devices of a board stand after a run.
use crate::parts::AnyBoard;
use board_text::text::{RecordText, SenseText};
use history::call::Event;
use history::device::{claims, kept_up};
use line::row::{Row, Sense};
use listing::path::Path;
use listing::stop::Stop;
use std::alloc::Global;
use std::fmt;
use tree::tree::Tree;

// What names a device in any tree: the path of its node, and the index of its specifier there.
#[derive(PartialEq, Eq, Drop)]
pub struct Name {
    pub path: Vec<u8>,
    pub index: usize,
}

// How a device stands after a run.
#[derive(Drop)]
pub struct Standing {
    pub name: Name,
    pub route: usize,
    pub sense: Sense,
    // How many claims named it.
    pub claims: usize,
    pub kept_up: bool,
    pub row: Row,
}

// How each device of the board of a tree stands after the run of a list, in the order of the routes.
pub fn standings(
    heap: Global,
    tree: &Tree<'_>,
    board: &AnyBoard,
    events: &[Event],
) -> Result<Vec<Standing>, Stop> {
    let mut standings = Vec::new(heap);
    let mut path = Path::new(heap);
    for node in tree.nodes() {
        let node = node?;
        path.enter(&node)?;
        for route in 0..board.count() {
            // Every route below the count has a device and a record.
            let Ok(device) = board.device(route) else {
                continue;
            };
            if device.route.device != node.place {
                continue;
            }
            let Ok(record) = board.record(route) else {
                continue;
            };
            let sense = device.route.sense;
            standings.push(Standing {
                name: Name {
                    path: path.text(heap)?,
                    index: device.route.index,
                },
                route,
                sense,
                claims: claims(route, events),
                kept_up: kept_up(sense, route, events),
                row: Row::from(record),
            })?;
        }
    }
    Ok(standings)
}

impl fmt::Display for Standing {
    fn fmt<W: fmt::Write>(&self, f: &mut fmt::Formatter<W>) -> fmt::Result {
        let kept_up = if self.kept_up { "yes" } else { "no" };
        write!(
            f,
            "{} {} claims {} kept {kept_up} record {}",
            self.route,
            SenseText(self.sense),
            self.claims,
            RecordText(self.row)
        )
    }
}
