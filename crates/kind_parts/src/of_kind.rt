ghost use Rattle.std.specs.Prelude.{◌≡◌, ◌<◌, ℕ, slice_index};
ghost use Rattle.cell_list.specs.CellLists.{cells_in};
ghost use Rattle.table.specs.Tables.{table_lines};
ghost use Rattle.plic.specs.Offers.{given_level, level_of, new_lines as plic_lines};
ghost use Rattle.any_controller.specs.Any.{any_meaning};
ghost use Rattle.kinds.specs.Kinds.{cells_option, kind as sort};
ghost use Rattle.kind_parts.specs.Makes.{OfKind, cell_level, level_at, new_lines};

use any_controller::any::AnyController;
use cell_list::CellList;
use i8259::chip::FullyNested;
use kinds::kind::Kind;
use plic::chip::{ByPriority, Plic};
use plic::plic_width::PlicWidth;
use plic::priority::Priority;
use status_mux::mux::LowestFirst;
use std::array;

// A new controller of a kind, with its width, and of a PLIC with its priorities.
pub fn controller_of(kind: &Kind<'_>) -> AnyController
    ensures lines { (any_meaning result).lines ≡ new_lines (sort kind.now) }
    ensures is { OfKind (sort kind.now) result }
{
    match kind {
        Kind::I8259 => AnyController::I8259(FullyNested::controller()),
        Kind::Plic(width, cells) => AnyController::Plic(plic_of(*width, *cells)),
        Kind::StatusMux(width) => AnyController::StatusMux(LowestFirst::controller(*width)),
    }
}

// A PLIC of this width, whose lines have the priorities that the cells say; without cells each is 1.
fn plic_of(width: PlicWidth, cells: Option<CellList<'_>>) -> Plic
    ensures lines { table_lines result.table ≡ plic_lines width }
    ensures levels { (i : ℕ) → i < width.number → level_of result.order i ≡ level_at (cells_option cells.entry) i }
{
    match cells {
        Some(cells) => ByPriority::controller(width, &priorities_of(&cells)),
        None => ByPriority::controller(width, &[]),
    }
}

// The priorities that cells say, as many as a PLIC has lines at most.
fn priorities_of(cells: &CellList<'_>) -> [Priority; 64]
    ensures { (i : ℕ) → i < 64 → given_level result i ≡ cell_level (slice_index (cells_in cells.now) i) }
{
    array::from_fn(|i| priority_of(cells.cell(i)))
}

// The priority that a cell says; 1 where it is not from 1 to 7.
fn priority_of(cell: u32) -> Priority
    ensures { result.number ≡ cell_level cell }
{
    let one = Priority::new(1).unwrap();
    Priority::new(cell as usize).unwrap_or(one)
}
