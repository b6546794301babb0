ghost use Rattle.std.specs.Prelude.{◌≡◌};
ghost use Rattle.properties.specs.Properties.{PropertyGoes, property_seen, first_property, place_of, sought};
ghost use Rattle.tree.specs.Nodes.{GoesOn, StandsThere, first_node, listed_by};
ghost use Rattle.tree.specs.Reads.{node_in, nodes_in, tokens_in};

use super::Tree;
use crate::node::Node;
use faults::fault::TokenFault;
use faults::place::Place;
use fdt::cursor::Cursor;
use fdt::token::Token;
use properties::{Property, look_ahead, place_of, property_from};

impl<'a> Tree<'a> {
    // Before the first token.
    pub fn start(&self) -> Cursor
        ensures { (result.place.0 ≡ self.now.blob.header.structure) × (result.depth ≡ 0) }
    {
        Cursor {
            place: self.blob.start(),
            depth: 0,
        }
    }

    // The first node from a cursor on, in blob order, at any depth.
    #[tactic(auto, using(crate::proofs::Nexts::first_listed, crate::proofs::Nexts::listed_again))]
    pub fn next_node(&self, cursor: Cursor) -> Result<Option<Node<'a>>, TokenFault>
        ensures is { node_in self.now result ≡ first_node (nodes_in self.now cursor.depth cursor.place.0) }
        ensures rest { nodes_in self.now cursor.depth cursor.place.0 ≡ listed_by (λ e. nodes_in self.now e.depth e.body) (node_in self.now result) }
        ensures goes { GoesOn self.now.blob.header cursor.place.0 result }
        ensures there { StandsThere self.now.blob.bytes.now self.now.blob.header result }
    {
        let mut depth = cursor.depth;
        for read in self.blob.tokens(cursor.place) {
            let (place, step) = read?;
            match step.token {
                Token::Open(name) => {
                    if depth >= 16 {
                        return Err(TokenFault::Depth(place));
                    }
                    let body = Cursor {
                        place: step.next,
                        depth: depth + 1,
                    };
                    return Ok(Some(Node { place, name, body }));
                }
                Token::Close => depth = depth.checked_sub(1).ok_or(TokenFault::Rule(place))?,
                Token::Property(_, _) | Token::Nothing => {}
                Token::End => return Ok(None),
            }
        }
        Ok(None)
    }

    // The first property from a place on, of the node that the place is in.
    pub fn property_from(&self, place: Place) -> Result<Option<Property<'a>>, TokenFault>
        ensures goes { PropertyGoes self.now.blob.header place.0 result }
        ensures is { property_seen result ≡ first_property (tokens_in self.now place.0) }
    {
        property_from(&self.blob, place)
    }

    // The first property of this name of a node.
    pub fn property(&self, node: &Node<'a>, name: &[u8]) -> Result<Option<Property<'a>>, TokenFault>
        ensures { property_seen result ≡ sought name.now (tokens_in self.now node.now.body.place.0) }
    {
        let mut cursor = node.body;
        look_ahead(&self.blob, &mut cursor, name)
    }

    // From a node's body on, the place of the first token which is neither a no-op nor a property of another name. A search for this
    // name from there on finds what it finds in the node.
    pub fn property_place(&self, node: &Node<'a>, name: &[u8]) -> Place
        ensures is { result.0 ≡ place_of name.now node.now.body.place.0 (tokens_in self.now node.now.body.place.0) }
        ensures same { sought name.now (tokens_in self.now result.0) ≡ sought name.now (tokens_in self.now node.now.body.place.0) }
    {
        place_of(&self.blob, node.body.place, name)
    }
}
