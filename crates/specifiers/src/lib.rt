//! The specifiers of a node, cut one after another from its `interrupts-extended` or its `interrupts`.
//! The definitions are in specs/Specifiers.antt.
#![tactic(auto)]

ghost use Rattle.std.specs.Prelude.{◌≡◌, length};
ghost use Rattle.cell_list.specs.CellLists.{cells_in as numbers};
ghost use Rattle.specifiers.specs.Cuts.{cuts_by, specifiers_in};
ghost use Rattle.specifiers.specs.Specifiers.{CutGoes, cut_in, head_in, head_of, next_specifier, specifiers_from, uncut, uncut_in};
ghost use Rattle.tree.specs.Reads.{entry_in, nodes_of};

use cell_list::CellList;
use faults::fault::RouteFault;
use faults::place::{At, Place};
use indexed::Indexed;
use interrupt_parent::interrupt_parent;
use tree::node::Node;
use values::property::cells_in;

pub mod list;

// What is not cut yet of a device's specifiers: the property and its cells that are left, the interrupt parent of `interrupts`
// (each specifier of `interrupts-extended` has a phandle instead), and the index of the next specifier.
#[derive(Clone, Copy, PartialEq, Eq, Debug)]
pub struct Specifiers<'a> {
    pub device: Node<'a>,
    pub property: Place,
    pub parent: Option<Node<'a>>,
    pub left: CellList<'a>,
    pub index: usize,
}

// A specifier: its device and property, its index, the node where it arrives first, and its cells.
#[derive(Clone, Copy, PartialEq, Eq, Debug)]
pub struct Specifier<'a> {
    pub device: Node<'a>,
    pub property: Place,
    pub index: usize,
    pub parent: Node<'a>,
    pub cells: CellList<'a>,
}

// A specifier that was cut off, and what is left.
#[derive(Clone, Copy, PartialEq, Eq, Debug)]
pub struct Cut<'a> {
    pub specifier: Specifier<'a>,
    pub rest: Specifiers<'a>,
}

// The node where a specifier arrives first, and the cells that begin with the specifier's.
#[derive(Clone, Copy, PartialEq, Eq, Debug)]
struct Head<'a> {
    parent: Node<'a>,
    cells: CellList<'a>,
}

// The specifiers of a device, none where no property or an empty one counts. 8 for a length that is no multiple of 4; for
// `interrupts` then the interrupt parent's faults, 8, 12 and 13. A fault belongs to the index 0.
pub fn specifiers_of<'a>(
    indexed: &Indexed<'a>,
    device: &Node<'a>,
) -> Result<Option<Specifiers<'a>>, RouteFault>
    ensures { uncut_in indexed.now.tree result ≡ specifiers_from (nodes_of indexed.now.tree) (entry_in indexed.now.tree device.now) }
{
    let tree = &indexed.tree;
    let (found, parent) = match cells_in(tree, device, b"interrupts-extended")? {
        Some(found) => (found, None),
        None => match cells_in(tree, device, b"interrupts")? {
            Some(found) if !found.value.is_empty() => (
                found,
                Some(interrupt_parent(indexed, device)?),
            ),
            Some(_) | None => return Ok(None),
        },
    };
    if found.value.is_empty() {
        return Ok(None);
    }
    Ok(Some(Specifiers {
        device: *device,
        property: found.property,
        parent,
        left: found.value,
        index: 0,
    }))
}

// The next specifier, with as many cells as `#interrupt-cells` says of the node where it arrives; none where no cell is left.
// 12 for a phandle of no node, 8 and 15 for `#interrupt-cells`, 14 for too few cells. After a fault the device has no further
// specifier.
#[tactic(auto, using(crate::proofs::Cutting::specifiers_is))]
pub fn next_specifier<'a>(
    indexed: &Indexed<'a>,
    from: &Specifiers<'a>,
) -> Result<Option<Cut<'a>>, RouteFault>
    ensures is { cut_in indexed.now.tree result ≡ next_specifier (nodes_of indexed.now.tree) (uncut indexed.now.tree from.now) }
    ensures goes { CutGoes (length (numbers from.now.left)) result }
    ensures rest { specifiers_in (nodes_of indexed.now.tree) (uncut indexed.now.tree from.now) ≡ cuts_by (specifiers_in (nodes_of indexed.now.tree)) (cut_in indexed.now.tree result) }
{
    if from.left.is_empty() {
        return Ok(None);
    }
    let head = head_of(indexed, from)?;
    let count = indexed.interrupt_cells(&head.parent)?;
    if head.cells.len() < count {
        return Err(RouteFault::Short(At::new(from.device.place, from.property)));
    }
    let specifier = Specifier {
        device: from.device,
        property: from.property,
        index: from.index,
        parent: head.parent,
        cells: head.cells.part(0, count),
    };
    let rest = Specifiers {
        left: head.cells.rest(count),
        index: from.index.saturating_add(1),
        ..*from
    };
    Ok(Some(Cut { specifier, rest }))
}

// Where the next specifier arrives first: at the interrupt parent, or at the node of the phandle before it.
fn head_of<'a>(indexed: &Indexed<'a>, from: &Specifiers<'a>) -> Result<Head<'a>, RouteFault>
    ensures { head_in indexed.now.tree result ≡ head_of (nodes_of indexed.now.tree) (uncut indexed.now.tree from.now) }
{
    match from.parent {
        Some(parent) => Ok(Head {
            parent,
            cells: from.left,
        }),
        None => {
            let holder = At::new(from.device.place, from.property);
            Ok(Head {
                parent: indexed.node_of(from.left.cell(0), holder)?,
                cells: from.left.rest(1),
            })
        }
    }
}
