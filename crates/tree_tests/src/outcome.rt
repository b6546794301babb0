// What a blob gives, as text.
use crate::refused::Refused;
use listing::stop::Stop;
use std::alloc::{AllocError, Global};
use tree::tree::Tree;

// How many nodes and phandles a blob has; `inspect` counts properties too, and while it lists.
pub(crate) fn counts(heap: Global, bytes: &[u8]) -> Result<String, Stop> {
    let tree = Tree::open(bytes)?;
    let (mut nodes, mut phandles) = (0usize, 0usize);
    for node in tree.nodes() {
        nodes = nodes.saturating_add(1);
        if tree.property(&node?, b"phandle")?.is_some() {
            phandles = phandles.saturating_add(1);
        }
    }
    Ok(format!(in heap; "opens {nodes} {phandles}")?)
}

// What a blob gives, by the text of one that opens; or its refusal. A closure that is passed in is called only under a clause that it
// may be.
pub(crate) fn outcome<F: Fn(&[u8]) -> Result<String, Stop>>(
    heap: Global,
    bytes: &[u8],
    gives: &F,
) -> Result<String, AllocError>
    requires { F.IsAlwaysCallable gives.now }
{
    match gives(bytes) {
        Ok(text) => Ok(text),
        Err(stop) => {
            let refused = Refused(stop.report()?);
            format!(in heap; "{refused}")
        }
    }
}
