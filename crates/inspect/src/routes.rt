// Where each interrupt of a tree ends.
use faults::report::Report;
use indexed::Indexed;
use listing::path::Path;
use listing::stop::Stop;
use route_text::{route_end, route_text};
use specifiers::list::specifiers;
use std::alloc::Global;
use tree::node::Node;
use tree::tree::Tree;

// The lines of specifiers, and how many of these have a route and how many are refused.
#[derive(Drop)]
struct RouteLines {
    text: Vec<u8>,
    routes: usize,
    refused: usize,
}

// The text with a line more for each specifier, in blob order, then how many have a route and how many are refused. The allocator goes to
// each call that allocates, as the language asks.
pub fn list_routes<'a>(heap: Global, tree: &Tree<'a>, text: Vec<u8>) -> Result<Vec<u8>, Stop> {
    let mut lines = RouteLines {
        text,
        routes: 0,
        refused: 0,
    };
    let indexed = Indexed::of(tree);
    let mut path = Path::new(heap);
    for node in tree.nodes() {
        let node = node?;
        path.enter(&node)?;
        lines.add(heap, &indexed, &node, &path)?;
    }
    let RouteLines {
        mut text,
        routes,
        refused,
    } = lines;
    let line = format!(in heap; "routes: {routes}, refused: {refused}\n")?;
    text.extend_from_slice(line.as_bytes())?;
    Ok(text)
}

impl RouteLines {
    // The lines of a node's specifiers.
    fn add<'a>(
        &mut self,
        heap: Global,
        indexed: &Indexed<'a>,
        node: &Node<'a>,
        path: &Path<'a>,
    ) -> Result<(), Stop> {
        // `zip`, since `enumerate` asks for a bound on how many there are.
        for (index, specifier) in (0usize..).zip(specifiers(indexed, node)) {
            match route_end(indexed, specifier) {
                Ok(route) => {
                    let text = route_text(heap, &route)?;
                    let line = format!(in heap; "route {} {index}{text} ", node.place)?;
                    self.text.extend_from_slice(line.as_bytes())?;
                    path.write_to(&mut self.text)?;
                    self.text.push(b'\n')?;
                    self.routes = self.routes.saturating_add(1);
                }
                Err(fault) => {
                    let report = Report::from(fault);
                    let line = format!(in heap; "refused {} {index} {report}\n", node.place)?;
                    self.text.extend_from_slice(line.as_bytes())?;
                    self.refused = self.refused.saturating_add(1);
                }
            }
        }
        Ok(())
    }
}
