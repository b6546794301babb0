use cells::part::Part;
use faults::place::Place;
use fdt::cursor::Cursor;

// A node is plain data and does not hold its tree, or each answer would have to say whose tree its node is of: a call takes the
// tree and then the node.
// A node: the place of its open token, its name, and the cursor past that token, whose depth is the node's.
#[derive(Clone, Copy, PartialEq, Eq, Debug)]
pub struct Node<'a> {
    pub place: Place,
    pub name: Part<'a>,
    pub body: Cursor,
}
