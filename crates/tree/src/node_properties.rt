ghost use Rattle.std.specs.Prelude.{◌≡◌};
ghost use Rattle.std.specs.Iterator.{YieldsFirstBy, item_count};
ghost use Rattle.tree.specs.NodeProperties.{properties, properties_left, property_of};
ghost use Rattle.tree.specs.Reads.{tokens_in};

use crate::node::Node;
use crate::tree::Tree;
use faults::fault::TokenFault;
use faults::place::Place;
use properties::Property;

// The properties of a node that are left, in blob order. Where the tokens cannot be read further, the fault is the last item.
// It is like `Nodes`; one iterator for both would need a trait of what it moves, its step and its item, longer than the two are.
#[derive(Drop)]
pub struct Properties<'a> {
    tree: Tree<'a>,
    // Where the next property is looked for; none past the last.
    at: Option<Place>,
}

impl<'a> Tree<'a> {
    // All properties of a node, in blob order.
    pub fn properties(&self, node: &Node<'a>) -> Properties<'a>
        ensures { properties_left result ≡ properties (tokens_in self.now node.now.body.place.0) }
    {
        Properties {
            tree: *self,
            at: Some(node.body.place),
        }
    }
}

impl<'a> Iterator for Properties<'a> {
    type Item = Result<Property<'a>, TokenFault>;

    ghost next_gives = { YieldsFirstBy property_of properties_left };

    ghost remaining = { item_count properties_left };

    #[tactic(auto, using(crate::proofs::Owning::properties_by))]
    fn next(&mut self) -> Option<Result<Property<'a>, TokenFault>> {
        let next = self.tree.property_from(self.at?);
        self.at = match next {
            Ok(Some(property)) => Some(property.next),
            Ok(None) | Err(_) => None,
        };
        next.transpose()
    }
}
