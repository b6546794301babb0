use faults::place::Place;

// Where a walk stands: the place of the next token, and how many nodes are open there.
#[derive(Clone, Copy, PartialEq, Eq, Debug)]
pub struct Cursor {
    pub place: Place,
    pub depth: usize,
}
