ghost use Rattle.std.specs.Prelude.{◌≡◌, take};
ghost use Rattle.properties.specs.Properties.{option_seen, owned, property_seen};
ghost use Rattle.tree.specs.Reads.{entry_in, node_in, nodes_of};
ghost use Rattle.tree.specs.Phandles.{checked, is_cell, one_cell, phandle_checked, phandle_of, phandles, used, with_phandle};

use super::Tree;
use crate::node::Node;
use faults::fault::{RouteFault, TokenFault};
use faults::place::{At, Place};
use properties::Property;

// The one cell of a property of a node; 8 where its value is not one cell.
pub fn one_cell(node: Place, property: &Property<'_>) -> Result<u32, RouteFault>
    ensures { result ≡ one_cell node.0 (owned property.now) }
{
    match property.value.bytes {
        &[a, b, c, d] => Ok(u32::from_be_bytes([a, b, c, d])),
        _ => Err(RouteFault::Value(At::new(node, property.place))),
    }
}

// Whether a property is there and its value is this one cell.
fn is_cell(property: Option<Property<'_>>, wanted: u32) -> bool
    ensures { result ≡ is_cell wanted (option_seen property.entry) }
{
    property.is_some_and(|p| one_cell(p.place, &p).is_ok_and(|cell| cell == wanted))
}

impl<'a> Tree<'a> {
    // The first property `phandle` of a node.
    fn phandle(&self, node: &Node<'a>) -> Result<Option<Property<'a>>, TokenFault>
        ensures { property_seen result ≡ phandle_of (entry_in self.now node.now) }
    {
        self.property(node, b"phandle")
    }

    // The node with this phandle, the first in blob order.
    pub fn node_of_phandle(&self, phandle: u32) -> Result<Option<Node<'a>>, TokenFault>
        ensures { node_in self.now result ≡ with_phandle phandle (nodes_of self.now) }
    {
        for node in self.nodes() {
            let node = node?;
            if is_cell(self.phandle(&node)?, phandle) {
                return Ok(Some(node));
            }
        }
        Ok(None)
    }

    // Whether one of the first `count` nodes has this phandle.
    #[tactic(auto, using(crate::proofs::Taking::take_first))]
    fn is_used(&self, phandle: u32, count: usize) -> Result<bool, TokenFault>
        ensures { result ≡ used phandle (take count (nodes_of self.now)) }
    {
        for node in self.nodes().take(count) {
            if is_cell(self.phandle(&node?)?, phandle) {
                return Ok(true);
            }
        }
        Ok(false)
    }

    // Whether the phandle of the node after the first `count`, if it has one, is good: 8 where it is not one cell, 9 where it is 0,
    // 0xffffffff or used by a node before.
    fn check_phandle(&self, node: &Node<'a>, count: usize) -> Result<(), RouteFault>
        ensures { result ≡ checked (phandle_checked (take count (nodes_of self.now)) (entry_in self.now node.now)) }
    {
        let Some(property) = self.phandle(node)? else {
            return Ok(());
        };
        let phandle = one_cell(node.place, &property)?;
        if phandle == 0 || phandle == 0xffffffff || self.is_used(phandle, count)? {
            return Err(RouteFault::Phandle(At::new(node.place, property.place)));
        }
        Ok(())
    }

    // In blob order the first phandle that is refused, 8 or 9.
    #[tactic(auto, using(crate::proofs::Taking::list_more, crate::proofs::Checking::any_count))]
    pub(crate) fn check_phandles(&self) -> Result<(), RouteFault>
        ensures { result ≡ checked (phandles (nodes_of self.now)) }
    {
        for (count, node) in self.nodes().enumerate() {
            self.check_phandle(&node?, count)?;
        }
        Ok(())
    }
}
