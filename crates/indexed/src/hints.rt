use crate::row::Few;
use crate::rows::Rows;
use crate::starts::{Far, Starts};
use cell_list::CellList;
use faults::place::Place;
use properties::Property;
use tree::tree::Tree;
use tree::tree::phandles::one_cell;

// A row of a map takes 12 bytes or more, so no two begin in one twelve of the 65,536 bytes that a blob may have.
const TWELVES: usize = 5462;

// Where the row of a phandle is, and its counts. A hint is tested where it is used, so nothing is promised of it.
#[derive(Clone, Copy, PartialEq, Eq, Debug, Default)]
pub(crate) struct Hint {
    pub(crate) index: u16,
    pub(crate) few: Few,
}

// For the rows of long maps, each in the twelve where it begins: the hint for its parent's phandle.
#[derive(Drop)]
pub(crate) struct Hints {
    list: [Hint; TWELVES],
}

impl Hints {
    // The hints for the maps of a tree's long nodes.
    pub(crate) fn of(tree: &Tree<'_>, rows: &Rows, far: &Far) -> Hints {
        let mut hints = Hints {
            list: [Hint::default(); TWELVES],
        };
        for starts in far.list.as_slice() {
            hints.add_node(tree, rows, starts);
        }
        hints
    }

    // The hint for a row of a map. A row's place is that of its map and four bytes for each cell before it.
    pub(crate) fn at(&self, row: Place) -> Option<Hint> {
        self.list.get(row.0 / 12).copied()
    }

    // The hints for the map of a node.
    fn add_node(&mut self, tree: &Tree<'_>, rows: &Rows, starts: &Starts) {
        if let Some(width) = width_at(tree, starts)
            && let Ok(Some(map)) = tree.property_from(Place(starts.map as usize))
        {
            self.add_map(rows, &map, width);
        }
    }

    // The hints for a map whose rows have so many child cells, up to a row that cannot be read.
    fn add_map(&mut self, rows: &Rows, map: &Property<'_>, width: usize) {
        let cells = CellList::new(map.value.bytes);
        let mut at: usize = 0;
        for _row in 0..cells.len() {
            let Some(hint) = found(rows, cells.cell(at.saturating_add(width))) else {
                break;
            };
            let place = map.place.0.saturating_add(at.saturating_mul(4));
            if let Some(kept) = self.list.get_mut(place / 12) {
                *kept = hint;
            }
            at = at.saturating_add(width).saturating_add(hint.few.size());
            if at >= cells.len() {
                break;
            }
        }
    }
}

// The hint for a phandle; none where its node has no good counts.
fn found(rows: &Rows, phandle: u32) -> Option<Hint> {
    let index = rows.search(phandle).ok()?;
    Some(Hint {
        index: u16::try_from(index).ok()?,
        few: rows.list.as_slice().get(index)?.counts?,
    })
}

// How many child cells the rows of a node's map have.
fn width_at(tree: &Tree<'_>, starts: &Starts) -> Option<usize> {
    let address = count_at(tree, starts.address)?;
    let interrupt = count_at(tree, starts.interrupt)?;
    Some(address as usize + interrupt as usize)
}

// The cell of the first property from a place on.
fn count_at(tree: &Tree<'_>, place: u32) -> Option<u32> {
    let property = tree.property_from(Place(place as usize)).ok()??;
    one_cell(property.place, &property).ok()
}
