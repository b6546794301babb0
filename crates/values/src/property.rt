ghost use Rattle.std.specs.Prelude.{◌≡◌, ◌≤◌};
ghost use Rattle.std.specs.Range.{range_inclusive_end, range_inclusive_start};
ghost use Rattle.properties.specs.Properties.{owned};
ghost use Rattle.tree.specs.Reads.{entry_in, nodes_of};
ghost use Rattle.values.specs.Values.{cell_in, cell_within, cells_within, found_seen, has, node_of, place_in, whole_cells, whole_seen};

use cell_list::CellList;
use faults::fault::RouteFault;
use faults::place::{At, Place};
use properties::Property;
use std::ops::RangeInclusive;
use tree::node::Node;
use tree::tree::Tree;
use tree::tree::phandles::one_cell;

// What was found at a property: its place, and its value.
#[derive(Clone, Copy, PartialEq, Eq, Debug)]
pub struct Found<T> {
    pub property: Place,
    pub value: T,
}

// A property of one cell.
pub type Cell = Found<u32>;

// A property of whole cells.
pub type Cells<'a> = Found<CellList<'a>>;

// A property of strings, as its bytes.
pub type Strings<'a> = Found<&'a [u8]>;

// The first property of this name of a node, which is one cell of the range; 8 where it is not. Like `cells_in` but for the reader of
// the value: one call with that as a closure would promise by what the closure gives, longer than both.
pub fn cell_in<'a>(
    tree: &Tree<'a>,
    node: &Node<'a>,
    name: &[u8],
    range: RangeInclusive<u32>,
) -> Result<Option<Cell>, RouteFault>
    ensures { result ≡ cell_in name.now (range_inclusive_start range) (range_inclusive_end range) (entry_in tree.now node.now) }
{
    let Some(property) = tree.property(node, name)? else {
        return Ok(None);
    };
    Ok(Some(cell_within(node.place, &property, range)?))
}

// The cell of a property, in the range from its start to its end; 8 where it is not one such cell. The node's place is given beside
// the property, here and in the readers like this one, since a property is plain data and does not know its node.
fn cell_within(
    node: Place,
    property: &Property<'_>,
    range: RangeInclusive<u32>,
) -> Result<Cell, RouteFault>
    ensures { result ≡ cell_within (range_inclusive_start range) (range_inclusive_end range) node.0 (owned property.now) }
{
    let value = one_cell(node, property)?;
    // By its ends, since `contains` of a range that an iteration has used up no longer has the end.
    if value < *range.start() || *range.end() < value {
        return Err(RouteFault::Value(At::new(node, property.place)));
    }
    Ok(Cell {
        property: property.place,
        value,
    })
}

// The first property of this name of a node, as whole cells; 8 where its length is no multiple of 4.
pub fn cells_in<'a>(
    tree: &Tree<'a>,
    node: &Node<'a>,
    name: &[u8],
) -> Result<Option<Cells<'a>>, RouteFault>
    ensures { found_seen result ≡ cells_within name.now (entry_in tree.now node.now) }
{
    let Some(property) = tree.property(node, name)? else {
        return Ok(None);
    };
    Ok(Some(whole_cells(node.place, &property)?))
}

// The cells of a property; 8 where its length is no multiple of 4.
pub fn whole_cells<'a>(node: Place, property: &Property<'a>) -> Result<Cells<'a>, RouteFault>
    ensures { whole_seen result ≡ whole_cells node.0 (owned property.now) }
{
    if property.value.bytes.len() % 4 != 0 {
        return Err(RouteFault::Value(At::new(node, property.place)));
    }
    Ok(Cells {
        property: property.place,
        value: CellList::new(property.value.bytes),
    })
}

// Whether a node has a property of this name.
pub fn has<'a>(tree: &Tree<'a>, node: &Node<'a>, name: &[u8]) -> Result<bool, RouteFault>
    ensures { result ≡ has name.now (entry_in tree.now node.now) }
{
    Ok(tree.property(node, name)?.is_some())
}

// The node with a phandle; 12 with the places of the node and the property that hold the phandle.
pub fn node_of<'a>(tree: &Tree<'a>, phandle: u32, holder: At) -> Result<Node<'a>, RouteFault>
    ensures { place_in tree.now result ≡ node_of (nodes_of tree.now) phandle holder }
{
    tree.node_of_phandle(phandle)?
        .ok_or(RouteFault::NoNode(holder))
}
