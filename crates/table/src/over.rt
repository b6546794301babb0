ghost use Rattle.std.specs.Prelude.{◌≡◌, ℕ, true, false, List, Option, Some, is_some, ⊤};
ghost use Rattle.line.specs.declared.row.Row.{Row};
ghost use Rattle.controller.specs.Meaning.{Changed, Claimed, all_reset, at};
ghost use Rattle.table.specs.Tables.{table_lines};
ghost use Rattle.table.specs.Kinds.{OfferedBy, meaning_by, ready, serving};
ghost use Rattle.table.specs.Orders.{lawful_by};

use crate::rows::Table;
use controller::call::{CallFault, Change};
use controller::interface::Controller;
use line::record::Line;

// An order in which the lines of a table are offered. A controller holds its order and drops it.
pub trait Order: Drop {
    // The line that is offered, of these lines.
    ghost chosen: { Self → List (Option Row) → Option ℕ };

    // What holds of the offered line of these lines and of no other.
    ghost rule: { Self → List (Option Row) → ℕ → Type 0 };

    // The line of a table that is offered.
    fn choose(&self, table: &Table) -> Option<usize>
        ensures { result ≡ chosen self.now (table_lines table.now) };

    // A line is offered exactly if the rule holds of it.
    ghost exactly: { (x : Self) (ls : List (Option Row)) → OfferedBy (rule x ls) (chosen x ls) };

    // An offered line waits.
    ghost waiting: { (x : Self) (ls : List (Option Row)) (i : ℕ) → chosen x ls ≡ Some i → ready (at ls i) ≡ true };

    // If no line is in service and some line waits, there is an offer.
    ghost eager: { (x : Self) (ls : List (Option Row))
        → ((k : ℕ) → serving (at ls k) ≡ false) → (i : ℕ) → ready (at ls i) ≡ true → is_some (chosen x ls) ≡ true };
}

// A controller over a table, whose lines are offered in an order of its own.
#[derive(Drop)]
pub struct OverTable<K> {
    table: Table,
    order: K,
}

impl<K: Order> OverTable<K> {
    // A controller of the lines of this table.
    pub fn new(table: Table, order: K) -> OverTable<K>
        ensures table { result.table ≡ table }
        ensures order { result.order ≡ order }
    {
        OverTable { table, order }
    }
}

impl<K: Order> Controller for OverTable<K> {
    ghost sound = { λ _. ⊤ };

    ghost meaning = { λ x. meaning_by (K.chosen x.order) (table_lines x.table) };

    ghost lawful = { λ x _. lawful_by (K.chosen x.order) x.table (K.waiting x.order (table_lines x.table)) (K.eager x.order (table_lines x.table)) };

    fn width(&self) -> usize {
        self.table.width()
    }

    // A line is offered exactly if the rule of the order holds of it.
    fn offer(&self) -> Option<usize>
        ensures is { result ≡ K.chosen self.now.order (table_lines self.now.table) }
        ensures exactly { OfferedBy (K.rule self.now.order (table_lines self.now.table)) result }
    {
        self.order.choose(&self.table)
    }

    fn record(&self, line: usize) -> Result<Line, CallFault> {
        self.table.line(line)
    }

    // The order stays, here and in a claim and a reset: each call says so, as no type says that a field stays.
    fn change(&mut self, line: usize, change: Change) -> Result<(), CallFault>
        ensures steps { Changed change line (meaning_by (K.chosen self.old.order) (table_lines self.old.table)) (meaning_by (K.chosen self.new.order) (table_lines self.new.table)) result }
        ensures order { self.new.order ≡ self.old.order }
    {
        self.table.change(line, change)
    }

    fn claim(&mut self) -> Option<usize>
        ensures names { Claimed (meaning_by (K.chosen self.old.order) (table_lines self.old.table)) (meaning_by (K.chosen self.new.order) (table_lines self.new.table)) result }
        ensures order { self.new.order ≡ self.old.order }
    {
        let i = self.offer()?;
        self.table.claim(i);
        Some(i)
    }

    fn reset(&mut self)
        ensures rests { table_lines self.new.table ≡ all_reset (table_lines self.new.table) }
        ensures resets { table_lines self.new.table ≡ all_reset (table_lines self.old.table) }
        ensures order { self.new.order ≡ self.old.order }
    {
        self.table.reset();
    }
}
