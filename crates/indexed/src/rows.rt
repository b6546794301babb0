ghost use Rattle.std.specs.Prelude.{◌≡◌, ℕ, [], ◌++◌, false, IfErr, IfOk, IsTrue, Some};
ghost use Rattle.indexed.specs.Orders.{IsAt, IsGap, Rising};
ghost use Rattle.indexed.specs.Rows.{counts_with, row_with, rows_of};

use crate::row::{Few, Row};
use arrayvec::ArrayVec;

// How many rows there is room for: a node with a phandle takes 28 bytes or more of the 65,536 that a blob may have.
const ROOM: usize = 2340;

// Rows in the order of their phandles, no two of which are the same.
#[derive(Drop)]
pub(crate) struct Rows {
    pub(crate) list: ArrayVec<Row, ROOM>,
    ghost rising: { Rising list.items },
}

impl Rows {
    // No row yet.
    pub(crate) fn new() -> Rows
        ensures { result.list.items ≡ [] }
    {
        Rows {
            list: ArrayVec::new(),
        }
    }

    // A row more, if one is handed over; one whose phandle another row has counts for nothing. Whether there was room for it.
    pub(crate) fn add(&mut self, row: Option<Row>) -> bool
        ensures more { IsTrue result → (x : ℕ) → row_with x self.new.list.items ≡ row_with x (self.old.list.items ++ rows_of row) }
        ensures full { result ≡ false → self.new.list.items ≡ self.old.list.items }
    {
        let Some(row) = row else {
            return true;
        };
        let Err(at) = self.search(row.phandle) else {
            return true;
        };
        if self.list.is_full() {
            return false;
        }
        self.list.insert(at, row);
        true
    }

    // The row with a phandle.
    pub(crate) fn with(&self, phandle: u32) -> Option<Row>
        ensures { result ≡ row_with phandle self.now.list.items }
    {
        match self.search(phandle) {
            Ok(at) => Some(self.list.as_slice()[at]),
            Err(_) => None,
        }
    }

    // Whether the row at an index has this phandle and these counts.
    pub(crate) fn is_at(&self, at: usize, phandle: u32, few: Few) -> bool
        ensures { IsTrue result → counts_with phandle self.now.list.items ≡ Some few }
    {
        let rows = self.list.as_slice();
        if at >= rows.len() || rows[at].phandle != phandle {
            return false;
        }
        let Some(kept) = rows[at].counts else {
            return false;
        };
        kept.address == few.address && kept.interrupt == few.interrupt
    }

    // Where the row with a phandle is, or where it would go in.
    pub(crate) fn search(&self, phandle: u32) -> Result<usize, usize>
        ensures found { IfOk result (IsAt self.now.list.items phandle) }
        ensures absent { IfErr result (IsGap self.now.list.items phandle) }
    {
        self.list
            .as_slice()
            .binary_search_by_key(&phandle, |row| row.phandle)
    }
}
