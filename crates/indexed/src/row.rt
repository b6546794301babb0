ghost use Rattle.std.specs.Prelude.{◌≡◌, ◌+◌};
ghost use Rattle.indexed.specs.Rows.{few};

use faults::place::Place;
use fdt::cursor::Cursor;
use values::counts::Counts;

// Both counts of a node, as numbers below 256.
#[derive(Clone, Copy, PartialEq, Eq, Debug, Default)]
pub(crate) struct Few {
    pub(crate) address: u8,
    pub(crate) interrupt: u8,
}

impl Few {
    // How many cells a row of a map has from its parent's phandle on.
    pub(crate) fn size(&self) -> usize
        ensures { result ≡ 1 + self.now.address + self.now.interrupt }
    {
        1 + self.address as usize + self.interrupt as usize
    }

    // Both counts.
    pub(crate) fn counts(&self) -> Counts
        ensures { result ≡ few self.now }
    {
        Counts {
            address: self.address.into(),
            interrupt: self.interrupt.into(),
        }
    }
}

// The row of a node: its phandle, the place of its open token, the depth before that, and both its counts, or none where one of them is
// in fault: then they are read again when they are asked for.
#[derive(Clone, Copy, PartialEq, Eq, Debug, Default)]
pub(crate) struct Row {
    pub(crate) phandle: u32,
    pub(crate) place: u32,
    pub(crate) depth: u8,
    pub(crate) counts: Option<Few>,
}

impl Row {
    // The cursor before the node's open token.
    pub(crate) fn cursor(&self) -> Cursor
        ensures { (result.place.0 ≡ self.now.place) × (result.depth ≡ self.now.depth) }
    {
        Cursor {
            place: Place(self.place as usize),
            depth: self.depth.into(),
        }
    }
}
