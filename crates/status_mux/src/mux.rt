ghost use Rattle.std.specs.Prelude.{◌≡◌};
ghost use Rattle.table.specs.Tables.{table_lines};
ghost use Rattle.status_mux.specs.Offers.{LowestWaiting, mux_offer, new_lines};
ghost use Rattle.status_mux.specs.Lowest.{mux_eager, mux_exactly, mux_waiting};

use crate::mux_width::MuxWidth;
use line::row::Sense;
use table::over::{Order, OverTable};
use table::rows::Table;

// The order of a status multiplexer: the lowest-numbered line that waits. Only this crate makes one, so every multiplexer
// has a width in range.
#[derive(Clone, Copy, PartialEq, Eq, Debug)]
pub struct LowestFirst(());

// A status multiplexer.
pub type StatusMux = OverTable<LowestFirst>;

// The type of a controller is another crate's, so it is made by its order.
impl LowestFirst {
    // A status multiplexer of following lines, as a reset leaves them.
    pub fn controller(width: MuxWidth) -> StatusMux
        ensures { table_lines result.table ≡ new_lines width }
    {
        OverTable::new(Table::new(width.into(), Sense::Following), LowestFirst(()))
    }
}

impl Order for LowestFirst {
    ghost chosen = { λ _. mux_offer };

    ghost rule = { λ _. LowestWaiting };

    ghost exactly = { λ _. mux_exactly };

    ghost waiting = { λ _. mux_waiting };

    ghost eager = { λ _. mux_eager };

    fn choose(&self, table: &Table) -> Option<usize> {
        table.lowest(|line| line.waits())
    }
}
