// The listing of one blob, as bytes: names are printed byte for byte.
use crate::board_lines::list_board;
use crate::routes::list_routes;
use listing::path::Path;
use listing::stop::Stop;
use std::alloc::{AllocError, Global};
use std::fmt;
use tree::node::Node;
use tree::tree::Tree;

// How much there is in a tree.
#[derive(Clone, Copy, PartialEq, Eq, Debug, Default)]
struct Counts {
    nodes: usize,
    properties: usize,
    phandles: usize,
}

impl fmt::Display for Counts {
    fn fmt<W: fmt::Write>(&self, f: &mut fmt::Formatter<W>) -> fmt::Result {
        write!(
            f,
            "{} nodes, {} properties, {} phandles",
            self.nodes, self.properties, self.phandles
        )
    }
}

impl Counts {
    // One node more.
    fn add(&mut self, tree: &Tree<'_>, node: &Node<'_>) -> Result<(), Stop> {
        self.nodes = self.nodes.saturating_add(1);
        for property in tree.properties(node) {
            property?;
            self.properties = self.properties.saturating_add(1);
        }
        if tree.property(node, b"phandle")?.is_some() {
            self.phandles = self.phandles.saturating_add(1);
        }
        Ok(())
    }
}

// A line for each node of an opened tree, in blob order, then how much there is.
fn all_nodes<'a>(heap: Global, tree: &Tree<'a>) -> Result<Vec<u8>, Stop> {
    let mut out = Vec::new(heap);
    let mut path = Path::new(heap);
    let mut counts = Counts::default();
    for node in tree.nodes() {
        let node = node?;
        path.enter(&node)?;
        let front = format!(in heap; "node {} {} ", node.place, node.body.depth)?;
        out.extend_from_slice(front.as_bytes())?;
        path.write_to(&mut out)?;
        out.push(b'\n')?;
        counts.add(tree, &node)?;
    }
    let line = format!(in heap; "opened: {counts}\n")?;
    out.extend_from_slice(line.as_bytes())?;
    Ok(out)
}

// What is in a blob that opens: its nodes, its routes, and the board.
fn tree_lines(heap: Global, bytes: &[u8]) -> Result<Vec<u8>, Stop> {
    let tree = Tree::open(bytes)?;
    let out = all_nodes(heap, &tree)?;
    let out = list_routes(heap, &tree, out)?;
    list_board(heap, &tree, out)
}

// What is in a blob, or the refusal.
pub fn listing(heap: Global, bytes: &[u8]) -> Result<Vec<u8>, AllocError> {
    match tree_lines(heap, bytes) {
        Ok(out) => Ok(out),
        Err(stop) => {
            let report = stop.report()?;
            Ok(format!(in heap; "refused: {report}\n")?.into_bytes())
        }
    }
}
