ghost use Rattle.std.specs.Prelude.{◌≡◌, ◌+◌, None, IfSome, IsTrue};
ghost use Rattle.indexed.specs.Spots.{Spotted, above_from, place_at};

use arrayvec::ArrayVec;
use faults::place::Place;
use fdt::cursor::Cursor;
use tree::node::Node;
use tree::tree::Tree;

// How many nodes there is room for: each takes 12 bytes or more of the 65,536 that a blob may have, of which its header takes 40.
const ROOM: usize = 5458;

// Where a node stands: its open token, counted in words of 4 bytes, and the depth before that.
#[derive(Clone, Copy, PartialEq, Eq, Debug, Default)]
pub(crate) struct Spot {
    pub(crate) word: u16,
    pub(crate) depth: u16,
}

impl Spot {
    // The place of the open token.
    pub(crate) fn place(&self) -> usize
        ensures { result ≡ place_at self.now }
    {
        self.word as usize * 4
    }

    // The cursor before the open token.
    pub(crate) fn cursor(&self) -> Cursor
        ensures { (result.place.0 ≡ place_at self.now) × (result.depth ≡ self.now.depth) }
    {
        Cursor {
            place: Place(self.place()),
            depth: self.depth.into(),
        }
    }

    // Whether it is this node's.
    pub(crate) fn is_of(&self, node: &Node<'_>) -> bool
        ensures { IsTrue result → (place_at self.now ≡ node.now.place.0) × (self.now.depth + 1 ≡ node.now.body.depth) }
    {
        self.place() == node.place.0 && self.depth as usize + 1 == node.body.depth
    }
}

// The spot of a node; none where a number has no room in it.
fn spot_of(node: &Node<'_>) -> Option<Spot>
    ensures place { IfSome result (λ s. place_at s ≡ node.now.place.0) }
    ensures depth { IfSome result (λ s. s.depth + 1 ≡ node.now.body.depth) }
{
    let spot = Spot {
        word: u16::try_from(node.place.0 / 4).ok()?,
        depth: u16::try_from(node.body.depth.checked_sub(1)?).ok()?,
    };
    if spot.place() != node.place.0 {
        return None;
    }
    Some(spot)
}

// The spots of a tree's nodes in blob order, and whether all nodes have one.
#[derive(Drop)]
pub(crate) struct Spots {
    pub(crate) list: ArrayVec<Spot, ROOM>,
    pub(crate) whole: bool,
}

impl Spots {
    // The spots of a tree, up to a node that cannot be read or has no room.
    pub(crate) fn of(tree: &Tree<'_>) -> Spots
        ensures { Spotted tree.now result.list.items result.whole }
    {
        let mut list = ArrayVec::new();
        let mut at = tree.start();
        while let Ok(Some(node)) = tree.next_node(at) {
            let Some(spot) = spot_of(&node) else {
                break;
            };
            if list.is_full() {
                break;
            }
            list.push(spot);
            at = node.body;
        }
        let whole = matches!(tree.next_node(at), Ok(None));
        Spots { list, whole }
    }

    // The place of the spot at an index; past all places where there is none.
    pub(crate) fn place_of(&self, i: usize) -> usize {
        self.list.as_slice().get(i).map_or(usize::MAX, Spot::place)
    }

    // The last spot before the one at a place that is one less deep than this.
    pub(crate) fn above(&self, place: usize, depth: usize) -> Option<Spot>
        ensures { result ≡ above_from place depth None self.now.list.items }
    {
        let mut above = None;
        for spot in self.list.as_slice() {
            if spot.place() == place {
                return above;
            }
            if spot.depth as usize + 2 == depth {
                above = Some(*spot);
            }
        }
        None
    }
}
