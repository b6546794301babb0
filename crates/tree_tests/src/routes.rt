// Where each specifier of a tree ends, as text: an item for each, in blob order.
use crate::refused::Refused;
use faults::report::Report;
use indexed::Indexed;
use listing::stop::Stop;
use route_text::{route_end, route_text};
use specifiers::list::specifiers;
use std::alloc::{AllocError, Global};
use std::fmt::Write;
use tree::node::Node;
use tree::tree::Tree;

// `routes`, then the items with `, ` between them.
pub fn routes(heap: Global, bytes: &[u8]) -> Result<String, Stop> {
    let tree = Tree::open(bytes)?;
    routes_of(heap, &tree)
}

// The text of an opened tree. It is no part of its caller, since it takes a stack of the size of an index as soon as it is called, and
// most strings of bytes do not open.
#[inline(never)]
fn routes_of(heap: Global, tree: &Tree<'_>) -> Result<String, Stop> {
    let indexed = Indexed::of(tree);
    let mut out = String::from_str(heap, "routes")?;
    for node in tree.nodes() {
        add_items(heap, &indexed, &node?, &mut out)?;
    }
    Ok(out)
}

// The items of a node's specifiers.
fn add_items<'a>(
    heap: Global,
    indexed: &Indexed<'a>,
    node: &Node<'a>,
    out: &mut String,
) -> Result<(), AllocError> {
    // `zip`, since `enumerate` asks for a bound on how many there are.
    for (index, specifier) in (0usize..).zip(specifiers(indexed, node)) {
        let between = if out.as_str() == "routes" { " " } else { ", " };
        let end = match route_end(indexed, specifier) {
            Ok(route) => route_text(heap, &route)?,
            Err(fault) => {
                let refused = Refused(Report::from(fault));
                format!(in heap; " {refused}")?
            }
        };
        write!(out, "{between}{}:{index}{end}", node.place)?;
    }
    Ok(())
}
