ghost use Rattle.std.specs.Prelude.{◌≡◌};
ghost use Rattle.std.specs.List.{list_all};
ghost use Rattle.cell_list.specs.CellLists.{cells_in as numbers};
ghost use Rattle.tree.specs.Reads.{entry_in};
ghost use Rattle.values.specs.Values.{whole_option};
ghost use Rattle.kinds.specs.Reading.{bound, called_in, is_level, kind_in, levels_by, width_by};
ghost use Rattle.kinds.specs.Seen.{called_seen, kind_seen, levels_seen, sort_seen, width_seen};

use crate::binding::Binding;
use crate::kind::Kind;
use board_faults::BoardFault;
use cell_list::CellList;
use faults::fault::RouteFault;
use faults::place::{At, Place};
use kind_values::{compatible, inputs, ndev};
use plic::priority::Priority;
use table::one_to::OneTo;
use tree::node::Node;
use tree::tree::Tree;
use values::counts::sooner;
use values::property::{Cell, Cells, cell_in, cells_in};

// What `compatible` names: the place of the property, 0 where it is missing, and the kind, none where no string names one.
#[derive(Clone, Copy, PartialEq, Eq, Debug)]
struct Called<'a> {
    property: Place,
    kind: Option<Kind<'a>>,
}

// The kind of a controller. Of the faults of its properties, 8, the one with the smallest place counts; then 10, where `compatible`
// names no kind, or `#interrupt-cells` is not the kind's.
pub fn kind_of<'a>(tree: &Tree<'a>, node: &Node<'a>) -> Result<Kind<'a>, BoardFault>
    ensures { kind_seen result ≡ kind_in (entry_in tree.now node.now) }
{
    let called = read_name(tree, node);
    let cells = cell_in(tree, node, b"#interrupt-cells", 1..=4);
    if let (Err(first), Err(second)) = (called, cells) {
        return Err(sooner(first, second).into());
    }
    let (called, cells) = (called?, cells?);
    let Some(kind) = called.kind else {
        return Err(BoardFault::Kind(At::new(node.place, called.property)));
    };
    match cells {
        Some(cell) if cell.value == kind.cells() => Ok(kind),
        Some(cell) => Err(BoardFault::Kind(At::new(node.place, cell.property))),
        None => Err(BoardFault::Kind(At::missing(node.place))),
    }
}

// What `compatible` names, with what is read of a node of that kind.
fn read_name<'a>(tree: &Tree<'a>, node: &Node<'a>) -> Result<Called<'a>, RouteFault>
    ensures { called_seen result ≡ called_in (entry_in tree.now node.now) }
{
    let Some(strings) = compatible(tree, node)? else {
        return Ok(Called {
            property: Place(0),
            kind: None,
        });
    };
    let kind = match Binding::in_strings(strings.value) {
        Some(binding) => Some(read_kind(tree, node, binding)?),
        None => None,
    };
    Ok(Called {
        property: strings.property,
        kind,
    })
}

// What is read of the node of a controller of this binding: its width, and once that is good a PLIC's priorities.
fn read_kind<'a>(tree: &Tree<'a>, node: &Node<'a>, binding: Binding) -> Result<Kind<'a>, RouteFault>
    ensures { sort_seen result ≡ bound (entry_in tree.now node.now) binding }
{
    match binding {
        Binding::I8259 => Ok(Kind::I8259),
        Binding::Plic => {
            let width = width(node.place, ndev(tree, node)?)?;
            let found = cells_in(tree, node, b"factory,priorities")?;
            Ok(Kind::Plic(width, levels(node.place, width.into(), found)?))
        }
        Binding::StatusMux => Ok(Kind::StatusMux(width(node.place, inputs(tree, node)?)?)),
    }
}

// A width that was read; 8 where it is missing.
fn width<const MOST: usize>(node: Place, found: Option<Cell>) -> Result<OneTo<MOST>, RouteFault>
    ensures { width_seen result ≡ width_by MOST node.0 found }
{
    let cell = found.ok_or(RouteFault::Value(At::missing(node)))?;
    OneTo::new(cell.value as usize).ok_or(RouteFault::Value(At::new(node, cell.property)))
}

// The priorities of so many lines, one cell a line, each 1 to 7; 8 where they are not.
fn levels<'a>(
    node: Place,
    wide: usize,
    found: Option<Cells<'a>>,
) -> Result<Option<CellList<'a>>, RouteFault>
    ensures { levels_seen result ≡ levels_by node.0 wide (whole_option found.entry) }
{
    let Some(found) = found else {
        return Ok(None);
    };
    if found.value.len() != wide || !are_levels(&found.value) {
        return Err(RouteFault::Value(At::new(node, found.property)));
    }
    Ok(Some(found.value))
}

// Whether each cell is a priority.
fn are_levels(cells: &CellList<'_>) -> bool
    ensures { result ≡ list_all is_level (numbers cells.now) }
{
    cells
        .iter()
        .all(|level| Priority::new(level as usize).is_some())
}
