ghost use Rattle.std.specs.Prelude.{◌≡◌, ◌++◌, [], IfOk, OnErr, OnOk};
ghost use Rattle.listing.specs.Paths.{above, entered, names_of, path_text};

use std::alloc::{AllocError, Global};
use tree::node::Node;

// The path of a node: the names from the root's subnode down to it. The root's has none.
#[derive(Drop)]
pub struct Path<'a> {
    names: Vec<&'a [u8]>,
}

impl<'a> Path<'a> {
    // The root's path.
    pub fn new(heap: Global) -> Path<'a>
        ensures { names_of result ≡ [] }
    {
        Path {
            names: Vec::new(heap),
        }
    }

    // Goes to a node, of which the nodes above it were gone to last.
    #[tactic(auto, using(crate::proofs::Pushed::pushed))]
    pub fn enter(&mut self, node: &Node<'a>) -> Result<(), AllocError>
        ensures ok { OnOk result (names_of self.new ≡ entered node.now.body.depth node.now.name.bytes.now (names_of self.old)) }
        ensures err { OnErr result (names_of self.new ≡ above node.now.body.depth (names_of self.old)) }
    {
        let depth = node.body.depth;
        self.names.truncate(depth.saturating_sub(2));
        if depth > 1 {
            self.names.push(node.name.bytes)?;
        }
        Ok(())
    }

    // The names, each after a `/`; the root's path is `/` alone.
    pub fn text(&self, heap: Global) -> Result<Vec<u8>, AllocError>
        ensures { IfOk result (λ text. text.items ≡ path_text (names_of self.now)) }
    {
        let mut text = Vec::new(heap);
        for name in &self.names {
            text.push(b'/')?;
            text.extend_from_slice(name)?;
        }
        if text.is_empty() {
            text.push(b'/')?;
        }
        Ok(text)
    }

    // Writes the path behind what is there: the names, each after a `/`; the root's path is `/` alone.
    pub fn write_to(&self, out: &mut Vec<u8>) -> Result<(), AllocError>
        ensures { OnOk result (out.new.items ≡ out.old.items ++ path_text (names_of self.now)) }
    {
        if self.names.is_empty() {
            out.push(b'/')?;
            return Ok(());
        }
        for name in &self.names {
            out.push(b'/')?;
            out.extend_from_slice(name)?;
        }
        Ok(())
    }
}
