ghost use Rattle.std.specs.Prelude.{◌≡◌, ◌++◌, slice_index};
ghost use Rattle.cell_list.specs.CellLists.{cells_in as numbers};
ghost use Rattle.nexus.specs.Nexuses.{Wanted, list_option, list_seen, mask_of, mask_seen, matches, nexus_at, ready, ready_in, under, unit_address, unit_of};
ghost use Rattle.properties.specs.Properties.{owned};
ghost use Rattle.tree.specs.Reads.{entry_in};

use arrayvec::ArrayVec;
use cell_list::CellList;
use faults::fault::RouteFault;
use faults::place::At;
use indexed::Indexed;
use properties::Property;
use tree::node::Node;
use values::property::whole_cells;

// How many child cells a row has at the most: both counts of a node are 4 or less.
const WANTED: usize = 8;

// A nexus at which cells arrived: the places of it and its map, how many child cells its rows have, the unit address and the
// specifier to match, the mask and the map.
#[derive(Clone, Copy, PartialEq, Eq, Debug)]
pub struct Nexus<'a> {
    pub holder: At,
    pub width: usize,
    pub unit: CellList<'a>,
    pub specifier: CellList<'a>,
    pub mask: Option<CellList<'a>>,
    pub map: CellList<'a>,
}

// The first `count` cells of the device's `reg`, which is not read for none; 8 for its length, 16 where it is missing or too
// short.
fn unit_address<'a>(
    indexed: &Indexed<'a>,
    device: &Node<'a>,
    count: usize,
) -> Result<CellList<'a>, RouteFault>
    ensures { list_seen result ≡ unit_address (entry_in indexed.now.tree device.now) count }
{
    if count == 0 {
        return Ok(CellList::new(&[]));
    }
    let Some(reg) = indexed.reg(device)? else {
        return Err(RouteFault::Row(At::missing(device.place)));
    };
    if reg.value.len() < count {
        return Err(RouteFault::Row(At::new(device.place, reg.property)));
    }
    Ok(reg.value.part(0, count))
}

// The unit address: what the row gave, or on the first arrival the device's.
fn unit_of<'a>(
    indexed: &Indexed<'a>,
    device: &Node<'a>,
    count: usize,
    given: Option<CellList<'a>>,
) -> Result<CellList<'a>, RouteFault>
    ensures { list_seen result ≡ unit_of (entry_in indexed.now.tree device.now) count (list_option given.entry) }
{
    match given {
        Some(unit) => Ok(unit),
        None => unit_address(indexed, device, count),
    }
}

// The mask of a nexus, if it has one; 8 for its length, 16 where it has not a cell for each child cell of a row.
fn mask_of<'a>(
    indexed: &Indexed<'a>,
    node: &Node<'a>,
    width: usize,
) -> Result<Option<CellList<'a>>, RouteFault>
    ensures { mask_seen result ≡ mask_of (entry_in indexed.now.tree node.now) width }
{
    let Some(mask) = indexed.mask(node)? else {
        return Ok(None);
    };
    if mask.value.len() != width {
        return Err(RouteFault::Row(At::new(node.place, mask.property)));
    }
    Ok(Some(mask.value))
}

// The nexus with this map, at which cells arrived: its counts (8, 15, 16), the unit address (8, 16), the mask (8, 16) and the
// map (8) are read in this order. `given` is the unit address that a row gave, none on the first arrival.
pub fn nexus_at<'a>(
    indexed: &Indexed<'a>,
    device: &Node<'a>,
    node: &Node<'a>,
    map: &Property<'a>,
    given: Option<CellList<'a>>,
    specifier: CellList<'a>,
) -> Result<Nexus<'a>, RouteFault>
    ensures { ready_in result ≡ nexus_at (entry_in indexed.now.tree device.now) (entry_in indexed.now.tree node.now) (owned map.now) (list_option given.entry) (numbers specifier.entry) }
{
    let counts = indexed.counts_at(node)?;
    let unit = unit_of(indexed, device, counts.address, given)?;
    let width = counts.address + counts.interrupt;
    let mask = mask_of(indexed, node, width)?;
    let whole = whole_cells(node.place, map)?;
    Ok(Nexus {
        holder: At::new(node.place, map.place),
        width,
        unit,
        specifier,
        mask,
        map: whole.value,
    })
}

impl<'a> Nexus<'a> {
    // The cell to match at an index, under the mask; without a mask every bit counts.
    fn masked(&self, i: usize) -> u32
        ensures { result ≡ under (list_option self.now.mask) i (slice_index (numbers self.now.unit ++ numbers self.now.specifier) i) }
    {
        let cell = self.cell(i);
        match self.mask {
            None => cell,
            Some(mask) => cell & mask.cell(i),
        }
    }

    // The cell to match at an index: of the unit address, then of the specifier.
    fn cell(&self, i: usize) -> u32
        ensures { result ≡ slice_index (numbers self.now.unit ++ numbers self.now.specifier) i }
    {
        let count = self.unit.len();
        if i < count {
            return self.unit.cell(i);
        }
        self.specifier.cell(i - count)
    }

    // The child cells that a row has to have, or the first of them where there are more than counts of a node allow.
    pub(crate) fn wanted(&self) -> ArrayVec<u32, WANTED>
        ensures { Wanted (ready self.now) result.items }
    {
        let mut wanted = ArrayVec::new();
        for i in 0..self.width.min(WANTED) {
            wanted.push(self.masked(i));
        }
        wanted
    }

    // Whether a row with these child cells matches: they are the cells to match under the mask.
    pub fn matches(&self, child: &CellList<'a>) -> bool
        ensures { result ≡ matches (ready self.now) (numbers child.now) }
    {
        let count = self.unit.len() + self.specifier.len();
        // By index: the cells to match come from two lists, and a mask that is too short has a 0, where `zip` would stop.
        child.len() == count && (0..count).all(|i| child.cell(i) == self.masked(i))
    }
}
