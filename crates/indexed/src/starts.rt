ghost use Rattle.std.specs.Prelude.{◌≡◌, IfSome};
ghost use Rattle.indexed.specs.Starts.{Told, far_with, needs_at, needs_by};

use crate::spots::{Spot, Spots};
use arrayvec::ArrayVec;
use faults::place::Place;
use tree::node::Node;
use tree::tree::Tree;

// How many bytes there are at least from a node with a row to the next node. A search over fewer is short.
const LONG: usize = 256;

// How many rows there is room for: a blob has 65,536 bytes at the most, so no more nodes are long.
const ROOM: usize = 256;

// For the node with this body: the place from which a search for each of six properties finds what it finds in the whole node.
#[derive(Clone, Copy, PartialEq, Eq, Debug, Default)]
pub(crate) struct Starts {
    pub(crate) body: u32,
    pub(crate) controller: u32,
    pub(crate) map: u32,
    pub(crate) mask: u32,
    pub(crate) address: u32,
    pub(crate) interrupt: u32,
    pub(crate) reg: u32,
}

// A place as a number of a row, if it has room there.
fn narrow(place: Place) -> Option<u32>
    ensures { IfSome result (λ n. n ≡ place.0) }
{
    u32::try_from(place.0).ok()
}

// The row of a node; none where a place has no room in it.
fn starts_of<'a>(tree: &Tree<'a>, node: &Node<'a>) -> Option<Starts>
    ensures body { IfSome result (λ s. s.body ≡ node.now.body.place.0) }
    ensures same { IfSome result (λ s. needs_by tree.now s ≡ needs_at tree.now node.now.body.place.0) }
{
    Some(Starts {
        body: narrow(node.body.place)?,
        controller: narrow(tree.property_place(node, b"interrupt-controller"))?,
        map: narrow(tree.property_place(node, b"interrupt-map"))?,
        mask: narrow(tree.property_place(node, b"interrupt-map-mask"))?,
        address: narrow(tree.property_place(node, b"#address-cells"))?,
        interrupt: narrow(tree.property_place(node, b"#interrupt-cells"))?,
        reg: narrow(tree.property_place(node, b"reg"))?,
    })
}

// The row of the node at a spot; none where none is read there.
fn starts_at(tree: &Tree<'_>, spot: &Spot) -> Option<Starts>
    ensures { IfSome result (λ s. needs_by tree.now s ≡ needs_at tree.now s.body) }
{
    let node = tree.next_node(spot.cursor()).ok()??;
    starts_of(tree, &node)
}

// The rows of the nodes whose properties are long, in blob order.
#[derive(Drop)]
pub(crate) struct Far {
    pub(crate) list: ArrayVec<Starts, ROOM>,
}

impl Far {
    // The rows of a tree's long nodes, of those that have a spot.
    pub(crate) fn of(tree: &Tree<'_>, spots: &Spots) -> Far
        ensures { Told tree.now result.list.items }
    {
        let mut list = ArrayVec::new();
        for (i, spot) in spots.list.as_slice().iter().enumerate() {
            let room = spots.place_of(i + 1).saturating_sub(spot.place());
            if room < LONG || list.is_full() {
                continue;
            }
            let Some(starts) = starts_at(tree, spot) else {
                continue;
            };
            list.push(starts);
        }
        Far { list }
    }

    // The row of the node with this body.
    pub(crate) fn with(&self, body: Place) -> Option<Starts>
        ensures { result ≡ far_with body.0 self.now.list.items }
    {
        self.list
            .as_slice()
            .iter()
            .find(|starts| starts.body as usize == body.0)
            .copied()
    }
}
