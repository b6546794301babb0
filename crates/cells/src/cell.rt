ghost use Rattle.std.specs.Prelude.{◌≡◌};
ghost use Rattle.cells.specs.Cells.{bytes_seen, cell_or, name_or, name_seen, part_or, part_seen, rest_or};

use super::name::{Name, first_zero, has_zero};
use super::part::Part;
use faults::place::Place;

// A block of a byte string: what is read has to end by `end` within the bytes; `past` answers what does not.
#[derive(Clone, Copy, PartialEq, Eq, Debug)]
pub struct Block<'a, F> {
    pub bytes: &'a [u8],
    pub end: usize,
    pub past: F,
}

impl<'a, F: Copy> Block<'a, F> {
    // The bytes from `at` up to the block's end.
    fn rest(&self, at: usize) -> Result<&'a [u8], F>
        ensures { bytes_seen result ≡ rest_or self.now.bytes.now at self.now.end self.now.past }
    {
        self.bytes.get(at..self.end).ok_or(self.past)
    }

    // The cell at `at`, most significant byte first.
    pub fn cell(&self, at: usize) -> Result<u32, F>
        ensures { result ≡ cell_or self.now.bytes.now at self.now.end self.now.past }
    {
        match self.rest(at)? {
            &[a, b, c, d, ..] => Ok(u32::from_be_bytes([a, b, c, d])),
            _ => Err(self.past),
        }
    }

    // The `size` bytes from `at` on.
    pub fn part(&self, at: usize, size: usize) -> Result<Part<'a>, F>
        ensures { part_seen result ≡ part_or self.now.bytes.now at size self.now.end self.now.past }
    {
        let bytes = self.rest(at)?.get(..size).ok_or(self.past)?;
        Ok(Part {
            place: Place(at),
            bytes,
        })
    }

    // The bytes from `at` on up to the first zero byte, which has to come before the block's end.
    pub fn name(&self, at: usize) -> Result<Part<'a>, F>
        ensures { part_seen result ≡ name_or self.now.bytes.now at self.now.end self.now.past }
    {
        let rest = self.rest(at)?;
        let size = first_zero(rest).ok_or(self.past)?;
        Ok(Part {
            place: Place(at),
            bytes: &rest[..size],
        })
    }

    // The name at `at`, left unread; its zero byte has to come before the block's end. The byte that stands `tried` bytes past `at` is
    // looked at first: where it is zero, no other byte is read.
    pub fn unread_name(&self, at: usize, tried: usize) -> Result<Name<'a>, F>
        ensures { name_seen result ≡ name_or self.now.bytes.now at self.now.end self.now.past }
    {
        let rest = self.rest(at)?;
        if !has_zero(rest, tried) {
            return Err(self.past);
        }
        Ok(Name {
            place: Place(at),
            rest,
        })
    }
}
