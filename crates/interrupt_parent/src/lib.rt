//! The interrupt parent of a node: the first candidate that has `#interrupt-cells`, of at most 64.
//! The definitions are in specs/Parents.antt.
#![tactic(auto)]

ghost use Rattle.std.specs.Prelude.{◌≡◌};
ghost use Rattle.interrupt_parent.specs.Parents.{candidate, interrupt_parent};
ghost use Rattle.tree.specs.Reads.{entry_in, nodes_of};
ghost use Rattle.values.specs.Values.{node_option, place_in};

use faults::fault::RouteFault;
use faults::place::At;
use indexed::Indexed;
use tree::node::Node;
use values::property::{cell_in, has};

// How many candidates are looked at.
const CANDIDATES: usize = 64;

// The node with the phandle in `interrupt-parent`, or without one the parent in the tree; none at the root.
fn candidate<'a>(indexed: &Indexed<'a>, node: &Node<'a>) -> Result<Option<Node<'a>>, RouteFault>
    ensures { node_option indexed.now.tree result ≡ candidate (nodes_of indexed.now.tree) (entry_in indexed.now.tree node.now) }
{
    let tree = &indexed.tree;
    match cell_in(tree, node, b"interrupt-parent", 0..=u32::MAX)? {
        None => Ok(indexed.parent(node)?),
        Some(cell) => {
            let holder = At::new(node.place, cell.property);
            Ok(Some(indexed.node_of(cell.value, holder)?))
        }
    }
}

// The interrupt parent of a device; 8 and 12 for an `interrupt-parent`, 13 where there is none among 64 candidates.
#[tactic(auto, using(crate::proofs::Further::looked_once, crate::proofs::Further::looked_at_all), unfolding(crate::specs::Parents::interrupt_parent))]
pub fn interrupt_parent<'a>(
    indexed: &Indexed<'a>,
    device: &Node<'a>,
) -> Result<Node<'a>, RouteFault>
    ensures { place_in indexed.now.tree result ≡ interrupt_parent (nodes_of indexed.now.tree) (entry_in indexed.now.tree device.now) }
{
    let mut at = *device;
    for _looked in 0..CANDIDATES {
        at = candidate(indexed, &at)?.ok_or(RouteFault::NoParent(device.place))?;
        if has(&indexed.tree, &at, b"#interrupt-cells")? {
            return Ok(at);
        }
    }
    Err(RouteFault::NoParent(device.place))
}
