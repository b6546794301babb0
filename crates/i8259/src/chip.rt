ghost use Rattle.std.specs.Prelude.{◌≡◌, replicate, Some};
ghost use Rattle.line.specs.declared.row.Sense.TheVariants.{Edge};
ghost use Rattle.line.specs.Rows.{fresh};
ghost use Rattle.table.specs.Tables.{table_lines};
ghost use Rattle.i8259.specs.Offers.{LowestUnserved, i8259_offer};
ghost use Rattle.i8259.specs.Held.{i8259_eager, i8259_exactly, i8259_waiting};

use line::row::Sense;
use table::over::{Order, OverTable};
use table::rows::Table;

// The order of an 8259A: a line in service holds back every line above it. Only this crate makes one, so every 8259A has
// eight lines.
#[derive(Clone, Copy, PartialEq, Eq, Debug)]
pub struct FullyNested(());

// An 8259A.
pub type I8259 = OverTable<FullyNested>;

// The type of a controller is another crate's, so it is made by its order.
impl FullyNested {
    // An 8259A of eight edge lines, as a reset leaves them.
    pub fn controller() -> I8259
        ensures { table_lines result.table ≡ replicate 8 (Some (fresh Edge)) }
    {
        OverTable::new(Table::new(8, Sense::Edge), FullyNested(()))
    }
}

impl Order for FullyNested {
    ghost chosen = { λ _. i8259_offer };

    ghost rule = { λ _. LowestUnserved };

    ghost exactly = { λ _. i8259_exactly };

    ghost waiting = { λ _. i8259_waiting };

    ghost eager = { λ _. i8259_eager };

    // Of the lines that wait or are in service the lowest-numbered, if it waits.
    fn choose(&self, table: &Table) -> Option<usize> {
        table
            .lowest(|line| line.waits() || line.serves())
            .filter(|&i| table.waits(i))
    }
}
