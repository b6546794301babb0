ghost use Rattle.std.specs.Prelude.{◌≡◌, ◌≤◌};
ghost use Rattle.cell_list.specs.CellLists.{cells_in};
ghost use Rattle.kinds.specs.Kinds.{cells_of, input_of, kind, sense_of, width_of};

use cell_list::CellList;
use line::row::Sense;
use plic::plic_width::PlicWidth;
use status_mux::mux_width::MuxWidth;

// A controller's kind, with what its node says of its lines.
#[derive(Clone, Copy, PartialEq, Eq, Debug)]
pub enum Kind<'a> {
    // Eight lines.
    I8259,
    // So many lines, and their priorities, one cell a line; where it has none, each priority is 1.
    Plic(PlicWidth, Option<CellList<'a>>),
    // So many lines.
    StatusMux(MuxWidth),
}

// An input of a controller, and the sense of the line there.
#[derive(Clone, Copy, PartialEq, Eq, Debug)]
pub struct Input {
    pub number: usize,
    pub sense: Sense,
}

impl Kind<'_> {
    // How many lines it has, 64 at most.
    pub fn width(&self) -> usize
        ensures is { result ≡ width_of (kind self.now) }
        ensures few { result ≤ 64 }
    {
        match self {
            Kind::I8259 => 8,
            Kind::Plic(width, _) => usize::from(*width),
            Kind::StatusMux(width) => usize::from(*width),
        }
    }

    // How many cells its specifiers have.
    pub fn cells(&self) -> u32
        ensures { result ≡ cells_of (kind self.now) }
    {
        match self {
            Kind::I8259 => 2,
            Kind::Plic(..) | Kind::StatusMux(_) => 1,
        }
    }

    // The input that a specifier names, and its sense; none where there is no such input or sense. An 8259A's first cell is the input,
    // 0 to 7, and its second the sense: 0 or 1 following, 2 or 3 edge. A PLIC's sources are numbered from 1, and its lines are gated.
    // A mux's inputs are numbered from 0, and its lines are following.
    pub fn input(&self, cells: &CellList<'_>) -> Option<Input>
        ensures { result ≡ input_of (kind self.now) (cells_in cells.now) }
    {
        let first = cells.cell(0) as usize;
        let input = match self {
            Kind::I8259 => Input {
                number: first,
                sense: sense_of(cells.cell(1))?,
            },
            Kind::Plic(..) => Input {
                number: first.checked_sub(1)?,
                sense: Sense::Gated,
            },
            Kind::StatusMux(_) => Input {
                number: first,
                sense: Sense::Following,
            },
        };
        if input.number < self.width() {
            Some(input)
        } else {
            None
        }
    }
}

// The sense of an 8259A's second cell.
fn sense_of(cell: u32) -> Option<Sense>
    ensures { result ≡ sense_of cell }
{
    match cell {
        0 | 1 => Some(Sense::Following),
        2 | 3 => Some(Sense::Edge),
        _ => None,
    }
}
