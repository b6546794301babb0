//! Finding nodes of an opened tree: by place, and the parent of a node. The definitions are in specs/Finding.antt.
#![tactic(auto)]

ghost use Rattle.std.specs.Prelude.{◌≡◌};
ghost use Rattle.nodes.specs.Finding.{node_at, parent_of};
ghost use Rattle.tree.specs.Reads.{node_in, nodes_of};

use faults::fault::TokenFault;
use faults::place::Place;
use tree::node::Node;
use tree::tree::Tree;

// The node whose open token stands at a place.
pub fn node_at<'a>(tree: &Tree<'a>, place: Place) -> Result<Option<Node<'a>>, TokenFault>
    ensures { node_in tree.now result ≡ node_at place.0 (nodes_of tree.now) }
{
    for node in tree.nodes() {
        let node = node?;
        if node.place == place {
            return Ok(Some(node));
        }
    }
    Ok(None)
}

// The node that a node is a subnode of; none for the root.
#[tactic(auto, using(tree::proofs::Depths::depth_next))]
pub fn parent<'a>(tree: &Tree<'a>, node: &Node<'a>) -> Result<Option<Node<'a>>, TokenFault>
    ensures { node_in tree.now result ≡ parent_of node.now.place.0 node.now.body.depth (nodes_of tree.now) }
{
    let mut above = None;
    for next in tree.nodes() {
        let next = next?;
        if next.place == node.place {
            return Ok(above);
        }
        if next.body.depth + 1 == node.body.depth {
            above = Some(next);
        }
    }
    Ok(None)
}
