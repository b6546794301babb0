ghost use Rattle.std.specs.Prelude.{◌≡◌};
ghost use Rattle.cells.specs.Headers.{header_of, block_within};

use super::cell::Block;
use faults::fault::HeaderFault;

// The header's cells that are used: the total size, and where each block begins and how long it is.
#[derive(Clone, Copy, PartialEq, Eq, Debug)]
pub struct Header {
    pub total: u32,
    pub structure: u32,
    pub structure_size: u32,
    pub strings: u32,
    pub strings_size: u32,
}

impl Header {
    // The header of a blob, or its first fault: 1 size, 2 magic number, 3 version, 4 blocks.
    pub fn read(bytes: &[u8]) -> Result<Header, HeaderFault>
        ensures { result ≡ header_of bytes.now }
    {
        let block = Block {
            bytes,
            end: 40,
            past: HeaderFault::Size,
        };
        let total = block.cell(4)?;
        if total < 40 || total > 65536 || total as usize > bytes.len() {
            return Err(HeaderFault::Size);
        }
        if block.cell(0)? != 0xd00dfeed {
            return Err(HeaderFault::Magic);
        }
        if block.cell(20)? < 17 || block.cell(24)? > 17 {
            return Err(HeaderFault::Version);
        }
        let structure = block.cell(8)?;
        let structure_size = block.cell(36)?;
        let strings = block.cell(12)?;
        let strings_size = block.cell(32)?;
        if !within(structure, structure_size, total)
            || !within(strings, strings_size, total)
            || structure % 4 != 0
            || structure_size % 4 != 0
        {
            return Err(HeaderFault::Blocks);
        }
        Ok(Header {
            total,
            structure,
            structure_size,
            strings,
            strings_size,
        })
    }
}

// Whether a block begins past the header and ends by the total size.
fn within(at: u32, size: u32, total: u32) -> bool
    ensures { result ≡ block_within at size total }
{
    at >= 40 && u64::from(at) + u64::from(size) <= u64::from(total)
}
