ghost use Rattle.std.specs.Prelude.{◌≡◌, ◌+◌, ◌<◌, length, take, IfOk};
ghost use Rattle.cell_list.specs.CellLists.{cells_in};
ghost use Rattle.nexus.specs.Nexuses.{Wanted, matches, ready};
ghost use Rattle.nexus.specs.Rows.{front, front_in, front_taken, row_size, taken_row, took_in};
ghost use Rattle.tree.specs.Reads.{nodes_of};

use crate::ready::Nexus;
use cell_list::CellList;
use faults::fault::RouteFault;
use faults::place::Place;
use indexed::Indexed;
use tree::node::Node;
use values::counts::Counts;

// The row that is taken: its number, its parent, and the unit address and the specifier that it gives.
#[derive(Clone, Copy, PartialEq, Eq, Debug)]
pub struct Taken<'a> {
    pub row: usize,
    pub parent: Node<'a>,
    pub unit: CellList<'a>,
    pub specifier: CellList<'a>,
}

// The row at the front of the cells, of which no more is read, since most rows do not match: both counts of its parent, and the cells
// after it.
#[derive(Clone, Copy, PartialEq, Eq, Debug)]
struct Front<'a> {
    counts: Counts,
    left: CellList<'a>,
}

// Where the row at the front of the cells stands: the place of the map, and four bytes for each cell before it. The index looks there for a hint.
fn place_of(nexus: &Nexus<'_>, rest: &CellList<'_>) -> Place {
    let before = nexus.map.len().saturating_sub(rest.len());
    Place(nexus.holder.property.0.wrapping_add(before.wrapping_mul(4)))
}

// The row at the front of the cells. 17 where no cell is left, 16 where the row passes the end of the map, 12 for its phandle, 8, 15 and
// 16 for the counts of its parent.
fn read_front<'a>(
    indexed: &Indexed<'a>,
    nexus: &Nexus<'a>,
    rest: &CellList<'a>,
) -> Result<Front<'a>, RouteFault>
    ensures is { front_in result ≡ front (nodes_of indexed.now.tree) (ready nexus.now) (cells_in rest.now) }
    ensures fits { IfOk result (λ f. row_size nexus.now.width f.counts + length (cells_in f.left) ≡ length (cells_in rest.now)) }
{
    let width = nexus.width;
    if rest.len() <= width {
        if rest.is_empty() {
            return Err(RouteFault::NoRow(nexus.holder));
        }
        return Err(RouteFault::Row(nexus.holder));
    }
    let counts = indexed.counts_of(rest.cell(width), nexus.holder, place_of(nexus, rest))?;
    let size = width + 1 + counts.address + counts.interrupt;
    if rest.len() < size {
        return Err(RouteFault::Row(nexus.holder));
    }
    Ok(Front {
        counts,
        left: rest.rest(size),
    })
}

// Whether the row at the front of the cells matches. The cells of `wanted` are compared first, since they are masked once for all rows.
fn front_matches<'a>(nexus: &Nexus<'a>, wanted: &[u32], rest: &CellList<'a>) -> bool
    requires wanted { Wanted (ready nexus.now) wanted.now }
    requires wide { nexus.now.width < length (cells_in rest.now) }
    ensures { result ≡ matches (ready nexus.now) (take nexus.now.width (cells_in rest.now)) }
{
    for (i, cell) in wanted.iter().enumerate() {
        if rest.cell(i) != *cell {
            return false;
        }
    }
    nexus.matches(&rest.part(0, nexus.width))
}

// The row at the front of the cells, whose parent has these counts, as the row that is taken.
fn front_taken<'a>(
    indexed: &Indexed<'a>,
    nexus: &Nexus<'a>,
    rest: &CellList<'a>,
    counts: Counts,
    row: usize,
) -> Result<Taken<'a>, RouteFault>
    requires { nexus.now.width < length (cells_in rest.now) }
    ensures { took_in indexed.now.tree result ≡ front_taken (nodes_of indexed.now.tree) (ready nexus.now) row (cells_in rest.now) counts }
{
    let parent = indexed.node_of(rest.cell(nexus.width), nexus.holder)?;
    let given = rest.rest(nexus.width + 1);
    Ok(Taken {
        row,
        parent,
        unit: given.part(0, counts.address),
        specifier: given.part(counts.address, counts.interrupt),
    })
}

// The first row of the map that matches; 17 where none does, and the fault of a row before it that cannot be read.
#[tactic(auto, using(crate::proofs::Tries::rows_front, crate::proofs::Tries::rows_on))]
pub fn taken_row<'a>(indexed: &Indexed<'a>, nexus: &Nexus<'a>) -> Result<Taken<'a>, RouteFault>
    ensures { took_in indexed.now.tree result ≡ taken_row (nodes_of indexed.now.tree) (ready nexus.now) }
{
    let wanted = nexus.wanted();
    let mut rest = nexus.map;
    // Each row has a cell at least, so there are no more rows than cells.
    for row in 0..nexus.map.len() {
        let front = read_front(indexed, nexus, &rest)?;
        if front_matches(nexus, wanted.as_slice(), &rest) {
            return front_taken(indexed, nexus, &rest, front.counts, row);
        }
        rest = front.left;
    }
    Err(RouteFault::NoRow(nexus.holder))
}
