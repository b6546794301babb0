ghost use Rattle.std.specs.Prelude.{◌≡◌, Some, decimal};
ghost use Rattle.faults.specs.Places.{places};

use std::fmt;

// A place is a byte offset in the blob: a token's is that of its first cell.
#[derive(Clone, Copy, PartialEq, Eq, PartialOrd, Ord, Debug)]
pub struct Place(pub usize);

impl fmt::Display for Place {
    ghost output = { λ place. Some (decimal place.0) };

    fn fmt<W: fmt::Write>(&self, f: &mut fmt::Formatter<W>) -> fmt::Result {
        write!(f, "{}", self.0)
    }
}

// Where a fault was met: the node whose property was read or missed, and the property's place, 0 where it was missed.
#[derive(Clone, Copy, PartialEq, Eq, Debug)]
pub struct At {
    pub node: Place,
    pub property: Place,
}

impl At {
    // At a property of a node.
    pub fn new(node: Place, property: Place) -> At
        ensures { result ≡ places node.0 property.0 }
    {
        At { node, property }
    }

    // At a node that misses the property.
    pub fn missing(node: Place) -> At
        ensures { result ≡ places node.0 0 }
    {
        At::new(node, Place(0))
    }
}
