ghost use Rattle.std.specs.Prelude.{◌≡◌};
ghost use Rattle.std.specs.Iterator.{item_count};
ghost use Rattle.tree.specs.Listing.{YieldsNodes, nodes_left};
ghost use Rattle.tree.specs.Reads.{nodes_of};

use crate::node::Node;
use crate::tree::Tree;
use faults::fault::TokenFault;
use fdt::cursor::Cursor;

// The nodes of a tree that are left, in blob order. Where the tokens cannot be read further, the fault is the last item.
#[derive(Drop)]
pub struct Nodes<'a> {
    tree: Tree<'a>,
    // Where the next node is looked for; none past the last.
    at: Option<Cursor>,
}

impl<'a> Tree<'a> {
    // All nodes, in blob order.
    pub fn nodes(&self) -> Nodes<'a>
        ensures tree { result.tree ≡ self.now }
        ensures all { nodes_left result ≡ nodes_of self.now }
    {
        Nodes {
            tree: *self,
            at: Some(self.start()),
        }
    }
}

impl<'a> Iterator for Nodes<'a> {
    type Item = Result<Node<'a>, TokenFault>;

    ghost next_gives = { YieldsNodes };

    ghost remaining = { item_count nodes_left };

    fn next(&mut self) -> Option<Result<Node<'a>, TokenFault>> {
        match self.tree.next_node(self.at.take()?) {
            Ok(Some(node)) => {
                self.at = Some(node.body);
                Some(Ok(node))
            }
            Ok(None) => None,
            Err(fault) => Some(Err(fault)),
        }
    }
}
