//! A value that is made of cells, as the list of their numbers. The definitions are in specs/CellLists.antt.
#![tactic(auto)]

ghost use Rattle.std.specs.Prelude.{◌≡◌, ◌==◌, ◌^◌, ◌<◌, length, take, drop, slice_index};
ghost use Rattle.std.specs.Iterator.{YieldsFirst, item_count};
ghost use Rattle.cell_list.specs.CellLists.{cells_in, cells_left, cells_of};

// The cells of a part of the blob, each as its four bytes. It is `Copy` and has a lifetime, so it can have no `impl Model`.
#[derive(Clone, Copy, PartialEq, Eq, Debug)]
pub struct CellList<'a> {
    cells: &'a [[u8; 4]],
}

impl<'a> CellList<'a> {
    // The cells of some bytes; fewer than four bytes that are left over at the end are not read.
    #[tactic(auto, using(crate::proofs::Chunks::chunks_are))]
    pub fn new(bytes: &'a [u8]) -> CellList<'a>
        ensures { cells_in result ≡ cells_of bytes.now }
    {
        CellList {
            cells: bytes.as_chunks::<4>().0,
        }
    }

    // How many cells there are.
    pub fn len(&self) -> usize
        ensures is { result ≡ length (cells_in self.now) }
        ensures low { result < 2 ^ 62 }
    {
        self.cells.len()
    }

    // Whether there is none.
    pub fn is_empty(&self) -> bool
        ensures { result ≡ (length (cells_in self.now) == 0) }
    {
        self.cells.is_empty()
    }

    // The cell at an index; 0 past the last.
    pub fn cell(&self, i: usize) -> u32
        ensures { result ≡ slice_index (cells_in self.now) i }
    {
        self.cells
            .get(i)
            .map_or(0, |cell| u32::from_be_bytes(*cell))
    }

    // The `count` cells from an index on, or as many of them as there are.
    #[tactic(auto, using(crate::proofs::Chunks::mapped_front))]
    pub fn part(&self, from: usize, count: usize) -> CellList<'a>
        ensures { cells_in result ≡ take count (drop from (cells_in self.now)) }
    {
        let rest = self.rest(from).cells;
        CellList {
            cells: &rest[..count.min(rest.len())],
        }
    }

    // The cells from an index on.
    #[tactic(auto, using(crate::proofs::Chunks::mapped_rest))]
    pub fn rest(&self, from: usize) -> CellList<'a>
        ensures { cells_in result ≡ drop from (cells_in self.now) }
    {
        CellList {
            cells: &self.cells[from.min(self.cells.len())..],
        }
    }

    // The cells in order.
    pub fn iter(&self) -> CellIter<'a>
        ensures { cells_left result ≡ cells_in self.now }
    {
        CellIter { left: *self }
    }
}

// The cells of a list that are left.
#[derive(Drop)]
pub struct CellIter<'a> {
    left: CellList<'a>,
}

impl<'a> Iterator for CellIter<'a> {
    type Item = u32;

    ghost next_gives = { YieldsFirst cells_left };

    ghost remaining = { item_count cells_left };

    fn next(&mut self) -> Option<u32> {
        let (first, rest) = self.left.cells.split_first()?;
        self.left.cells = rest;
        Some(u32::from_be_bytes(*first))
    }
}
