ghost use Rattle.std.specs.Prelude.{◌≡◌, ◌==◌};
ghost use Rattle.plan.specs.Controllers.{ends_at, made, no_controller, parent_with};

use faults::place::Place;
use kinds::kind::Kind;
use search::keyed::Keyed;

// An input of a controller: the controller's number and the input's.
#[derive(Clone, Copy, PartialEq, Eq, Debug)]
pub struct Spot {
    pub controller: usize,
    pub input: usize,
}

// Where a controller's own specifier ends.
#[derive(Clone, Copy, PartialEq, Eq, Debug)]
pub enum Parent {
    // It has none, and is the root.
    Root,
    // At this input of its parent.
    At(Spot),
    // It has more than one, which is refused.
    Several,
}

impl Parent {
    // One specifier more.
    pub(crate) fn with(self, spot: Spot) -> Parent
        ensures { result ≡ parent_with spot self }
    {
        match self {
            Parent::Root => Parent::At(spot),
            Parent::At(_) | Parent::Several => Parent::Several,
        }
    }

    // Whether the one specifier ends at this input.
    pub fn is_at(&self, spot: Spot) -> bool
        ensures { result ≡ ends_at spot self.now }
    {
        match self {
            Parent::At(at) => *at == spot,
            Parent::Root | Parent::Several => false,
        }
    }
}

// A controller of a tree. Controllers are numbered from 0 in blob order.
#[derive(Clone, Copy, PartialEq, Eq, Debug)]
pub struct Controller<'a> {
    pub node: Place,
    pub kind: Kind<'a>,
    pub parent: Parent,
    // The line of its input 0: the widths of the controllers placed before it. None until it is placed.
    pub first_line: Option<usize>,
}

// A controller is found by the place of its node.
impl Keyed for Controller<'_> {
    type Key = Place;

    ghost fit = { λ c p. c.node.0 == p.0 };

    fn fits(&self, key: &Place) -> bool {
        self.node == *key
    }
}

// What a table of controllers holds where it has none.
impl Default for Controller<'_> {
    ghost is_default = { λ c. made c ≡ no_controller };

    fn default() -> Self {
        Controller {
            node: Place(0),
            kind: Kind::I8259,
            parent: Parent::Root,
            first_line: None,
        }
    }
}
