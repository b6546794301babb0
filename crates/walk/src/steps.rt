ghost use Rattle.std.specs.Prelude.{◌≡◌, ◌+◌};
ghost use Rattle.cell_list.specs.CellLists.{cells_in};
ghost use Rattle.nexus.specs.Nexuses.{list_option};
ghost use Rattle.properties.specs.Properties.{owned};
ghost use Rattle.specifiers.specs.Specifiers.{specified};
ghost use Rattle.tree.specs.Reads.{entry_in, nodes_of};
ghost use Rattle.walk.specs.Hops.{hops_of};
ghost use Rattle.walk.specs.Walks.{arrived, looked_up, route_in, walked};

use crate::hops::{Hop, Hops};
use cell_list::CellList;
use faults::fault::RouteFault;
use faults::place::{At, Place};
use indexed::Indexed;
use nexus::ready::nexus_at;
use nexus::rows::taken_row;
use properties::Property;
use specifiers::Specifier;
use tree::node::Node;

// A route: the device's place, the specifier's index, the rows taken, the controller, and the specifier cells that arrive there.
#[derive(Clone, Copy, PartialEq, Eq, Debug)]
pub struct Route<'a> {
    pub device: Place,
    pub index: usize,
    pub hops: Hops,
    pub controller: Node<'a>,
    pub cells: CellList<'a>,
}

// Cells that arrive at a node: the unit address that a row gave with them, none on the first arrival; the rows taken so far, and
// how many more are allowed, eight in all. That number is kept, though the hops tell it, since the walk ends because it falls.
#[derive(Clone, Copy, PartialEq, Eq, Debug)]
struct Arrival<'a> {
    node: Node<'a>,
    given: Option<CellList<'a>>,
    cells: CellList<'a>,
    hops: Hops,
    rows_left: usize,
    ghost eight: { hops.count + rows_left ≡ 8 },
}

// The walk of a specifier whose cells arrive first at this node, through at most eight rows.
pub fn walk_from<'a>(
    indexed: &Indexed<'a>,
    specifier: &Specifier<'a>,
    node: &Node<'a>,
) -> Result<Route<'a>, RouteFault>
    ensures { route_in indexed.now.tree result ≡ walked (nodes_of indexed.now.tree) (specified indexed.now.tree specifier.now) (entry_in indexed.now.tree node.now) }
{
    let first = Arrival {
        node: *node,
        given: None,
        cells: specifier.cells,
        hops: Hops::none(),
        rows_left: 8,
    };
    arrive(indexed, specifier, &first)
}

// A controller ends the route; a node with `interrupt-map` is a nexus; any other is 15.
#[cycle(arrive_look_up_row)]
fn arrive<'a>(
    indexed: &Indexed<'a>,
    specifier: &Specifier<'a>,
    arrival: &Arrival<'a>,
) -> Result<Route<'a>, RouteFault>
    ensures { route_in indexed.now.tree result ≡ arrived arrival.now.rows_left (nodes_of indexed.now.tree) (specified indexed.now.tree specifier.now) (entry_in indexed.now.tree arrival.now.node) (list_option arrival.now.given) (cells_in arrival.now.cells) (hops_of arrival.now.hops) }
{
    let node = &arrival.node;
    if indexed.is_controller(node)? {
        return Ok(Route {
            device: specifier.device.place,
            index: specifier.index,
            hops: arrival.hops,
            controller: *node,
            cells: arrival.cells,
        });
    }
    match indexed.map(node)? {
        Some(map) => look_up_row(indexed, specifier, arrival, &map),
        None => Err(RouteFault::NoEnd(At::missing(node.place))),
    }
}

// The nexus takes its first row that matches, 18 for a ninth, and the walk goes on at the row's parent.
#[cycle(arrive_look_up_row)]
fn look_up_row<'a>(
    indexed: &Indexed<'a>,
    specifier: &Specifier<'a>,
    arrival: &Arrival<'a>,
    map: &Property<'a>,
) -> Result<Route<'a>, RouteFault>
    ensures { route_in indexed.now.tree result ≡ looked_up arrival.now.rows_left (nodes_of indexed.now.tree) (specified indexed.now.tree specifier.now) (entry_in indexed.now.tree arrival.now.node) (owned map.now) (list_option arrival.now.given) (cells_in arrival.now.cells) (hops_of arrival.now.hops) }
{
    let node = &arrival.node;
    let nexus = nexus_at(
        indexed,
        &specifier.device,
        node,
        map,
        arrival.given,
        arrival.cells,
    )?;
    let taken = taken_row(indexed, &nexus)?;
    if arrival.rows_left == 0 {
        return Err(RouteFault::TooManyRows(nexus.holder));
    }
    let hop = Hop {
        nexus: node.place,
        row: taken.row,
    };
    let next = Arrival {
        node: taken.parent,
        given: Some(taken.unit),
        cells: taken.specifier,
        hops: arrival.hops.with(hop),
        rows_left: arrival.rows_left - 1,
    };
    arrive(indexed, specifier, &next)
}
