ghost use Rattle.std.specs.Prelude.{◌≡◌, ℕ, ◌+◌, ◌^◌, ◌<◌, ◌≤◌, ◌==◌, List, length, position, reverse, IfOk};
ghost use Rattle.fdt.specs.Blobs.{SameFront, blob_of, blob_seen, last_zero, strings_block};
ghost use Rattle.fdt.specs.Items.{more};
ghost use Rattle.fdt.specs.Reads.{token_of, tokens_of};
ghost use Rattle.fdt.specs.Stands.{TokenStands};
ghost use Rattle.fdt.specs.Unread.{Decided};
ghost use Rattle.faults.specs.declared.fault.TokenFault.TheVariants.{Past};
ghost use Rattle.fdt.specs.Tokens.{align, ending, open_at, property_at, step_seen};

use super::token::{Step, Token};
use cells::cell::Block;
use cells::header::Header;
use faults::fault::{HeaderFault, TokenFault};
use faults::place::Place;

// The bytes of a blob up to its total size, with the header that they begin with. Only `new` makes one.
#[derive(Clone, Copy, PartialEq, Eq, Debug)]
pub struct Blob<'a> {
    bytes: &'a [u8],
    header: Header,
    // Where in the strings block its last zero byte stands: the names that begin there or before it end. It is kept so that one byte
    // tells whether a property's name ends; no answer depends on it.
    last_zero: usize,
}

impl<'a> Blob<'a> {
    // The blob at the front of the bytes, or the first fault of its header, 1 to 4. No byte past the total size is read.
    #[tactic(auto, using(crate::proofs::Fronts::blob_same))]
    pub fn new(bytes: &'a [u8]) -> Result<Blob<'a>, HeaderFault>
        ensures is { blob_seen result ≡ blob_of bytes.now }
        ensures unread { (c : List ℕ) → SameFront bytes.now c → blob_seen result ≡ blob_of c }
        ensures zero { IfOk result (λ b. b.last_zero ≡ last_zero (strings_block b.bytes.now b.header)) }
    {
        let header = Header::read(bytes)?;
        let bytes = &bytes[..header.total as usize];
        let start = header.strings as usize;
        let strings = &bytes[start..start + header.strings_size as usize];
        Ok(Blob {
            bytes,
            header,
            last_zero: last_zero(strings),
        })
    }

    // The place of the first token.
    pub fn start(&self) -> Place
        ensures { result.0 ≡ self.now.header.structure }
    {
        Place(self.header.structure as usize)
    }

    // The token at a place, and the place of the next one; 5 with this place where no token can be read.
    #[tactic(auto, using(crate::proofs::Standing::token_stands, crate::proofs::Onward::items_is))]
    pub fn token_at(&self, place: Place) -> Result<Step<'a>, TokenFault>
        ensures is { step_seen result ≡ token_of self.now place.0 }
        ensures stands { TokenStands self.now.bytes.now (step_seen result) }
        ensures decided { Decided self.now.bytes.now self.now.header place.0 (step_seen result) }
        ensures goes { IfOk result (λ s. (place.0 + 4 ≤ s.next.0) × (place.0 + 4 ≤ ending self.now.header)) }
        ensures rest { tokens_of self.now place.0 ≡ more (tokens_of self.now) place.0 (step_seen result) }
    {
        self.read_token(place)
    }

    // The token that begins with the cell at a place, which is a multiple of 4 in the structure block. What `token_at`
    // promises besides follows from this in one step for all kinds of tokens; as one function, eight goals stayed open.
    fn read_token(&self, place: Place) -> Result<Step<'a>, TokenFault>
        ensures { step_seen result ≡ token_of self.now place.0 }
    {
        let at = place.0;
        let block = self.structure(place);
        if at < self.header.structure as usize || at % 4 != 0 {
            return Err(block.past);
        }
        let token = match block.cell(at)? {
            1 => return self.open_at(place),
            2 => Token::Close,
            3 => return self.property_at(place),
            4 => Token::Nothing,
            9 => Token::End,
            _ => return Err(block.past),
        };
        Ok(Step {
            token,
            next: Place(at + 4),
        })
    }

    // Where the structure block ends.
    pub fn end(&self) -> usize
        ensures is { result ≡ ending self.now.header }
        ensures low { result < 2 ^ 33 }
    {
        self.header.structure as usize + self.header.structure_size as usize
    }

    // The structure block, as it is read for the token at a place.
    fn structure(&self, place: Place) -> Block<'a, TokenFault>
        ensures bytes { result.bytes.now ≡ self.now.bytes.now }
        ensures end { result.end ≡ ending self.now.header }
        ensures past { result.past ≡ Past place }
    {
        Block {
            bytes: self.bytes,
            end: self.end(),
            past: TokenFault::Past(place),
        }
    }

    // Cell 1, then the node's name, ended by a zero byte and padded.
    fn open_at(&self, place: Place) -> Result<Step<'a>, TokenFault>
        requires { place.0 < 2 ^ 33 }
        ensures { step_seen result ≡ open_at self.now.bytes.now self.now.header place.0 }
    {
        let at = place.0;
        let name = self.structure(place).name(at + 4)?;
        Ok(Step {
            token: Token::Open(name),
            next: aligned(at + 4 + name.bytes.len() + 1),
        })
    }

    // Cell 3, a cell with the value's length, one with the name's offset in the strings block, the value, padded.
    fn property_at(&self, place: Place) -> Result<Step<'a>, TokenFault>
        requires { place.0 < 2 ^ 33 }
        ensures { step_seen result ≡ property_at self.now.bytes.now self.now.header place.0 }
    {
        let at = place.0;
        let block = self.structure(place);
        let size = block.cell(at + 4)? as usize;
        let offset = block.cell(at + 8)? as usize;
        let value = block.part(at + 12, size)?;
        let start = self.header.strings as usize;
        let strings = Block {
            end: start + self.header.strings_size as usize,
            ..block
        };
        let name = strings.unread_name(start + offset, self.last_zero.saturating_sub(offset))?;
        Ok(Step {
            token: Token::Property(name, value),
            next: aligned(at + 12 + size),
        })
    }
}

// Where the last zero byte stands; 0 where there is none.
fn last_zero(bytes: &[u8]) -> usize
    ensures { result ≡ last_zero bytes.now }
{
    match after_last_zero(bytes) {
        Some(after) => bytes.len() - 1 - after,
        None => 0,
    }
}

// How many bytes stand after the last zero byte.
fn after_last_zero(bytes: &[u8]) -> Option<usize>
    ensures { result ≡ position (λ byte. byte == 0) (reverse bytes.now) }
{
    bytes.iter().rev().position(|byte| *byte == 0)
}

// The place that is the next multiple of 4.
fn aligned(at: usize) -> Place
    requires { at + 3 < 2 ^ 64 }
    ensures { result.0 ≡ align at }
{
    Place(at.next_multiple_of(4))
}
