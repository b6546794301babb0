ghost use Rattle.std.specs.Prelude.{◌≡◌, ℕ, ◌<◌};
ghost use Rattle.table.specs.Tables.{table_lines};
ghost use Rattle.plic.specs.Offers.{Foremost, given_level, level_of, new_lines, plic_offer};
ghost use Rattle.plic.specs.Best.{plic_eager, plic_exactly, plic_waiting};

use crate::plic_width::PlicWidth;
use crate::priority::Priority;
use line::row::Sense;
use std::array;
use table::over::{Order, OverTable};
use table::rows::Table;

// The order of a PLIC: the waiting line of greatest priority, among equals the lowest-numbered.
#[derive(Clone, Copy, PartialEq, Eq, Debug)]
pub struct ByPriority {
    // The priority of each line, a byte each, beside the rows and not in them: rows are the same for every order.
    levels: [u8; 64],
}

// A PLIC.
pub type Plic = OverTable<ByPriority>;

// The type of a controller is another crate's, so it is made by its order.
impl ByPriority {
    // A PLIC of gated lines, as a reset leaves them. Line i has the priority at i, or 1 where there is none.
    pub fn controller(width: PlicWidth, priorities: &[Priority]) -> Plic
        ensures lines { table_lines result.table ≡ new_lines width }
        ensures levels { (i : ℕ) → i < width.number → level_of result.order i ≡ given_level priorities.now i }
    {
        let levels = array::from_fn(|i| level_at(priorities, i));
        OverTable::new(
            Table::new(width.into(), Sense::Gated),
            ByPriority { levels },
        )
    }

    // The priority of line i; 0 past the last.
    fn level(&self, i: usize) -> usize
        ensures { result ≡ level_of self.now i }
    {
        self.levels.get(i).map_or(0, |level| usize::from(*level))
    }
}

// The priority at i, or 1 past the end.
#[tactic(auto, using(crate::proofs::Priorities::number_at))]
fn level_at(priorities: &[Priority], i: usize) -> u8
    ensures { result ≡ given_level priorities.now i }
{
    let one = Priority::new(1).unwrap();
    usize::from(priorities.get(i).copied().unwrap_or(one)) as u8
}

impl Order for ByPriority {
    ghost chosen = { λ x. plic_offer (level_of x) };

    ghost rule = { λ x. Foremost (level_of x) };

    ghost exactly = { λ x. plic_exactly (level_of x) };

    ghost waiting = { λ x. plic_waiting (level_of x) };

    ghost eager = { λ x. plic_eager (level_of x) };

    // From the last line to the first, since `max_by_key` takes the last of equal ones.
    fn choose(&self, table: &Table) -> Option<usize> {
        (0..table.width())
            .rev()
            .filter(|&i| table.waits(i))
            .max_by_key(|&i| self.level(i))
    }
}
