// Blobs written as text.
use std::alloc::{AllocError, AllocFailed, Global};

// The names that routing reads.
pub(crate) const ROUTING: &str =
    "phandle/reg/interrupts/interrupts-extended/interrupt-parent/interrupt-controller/interrupt-map/interrupt-map-mask/#interrupt-cells/#address-cells/";

// A few names for opening.
pub(crate) const OPENING: &str = "phandle/reg/phandl/phandles/linux,phandle/";

// Why a row cannot be run.
#[derive(Clone, Copy, PartialEq, Eq, Debug)]
pub(crate) enum BadRow {
    Memory,
    // A word that is no number and no token.
    Word,
}

impl From<AllocError> for BadRow {
    fn from(_e: AllocError) -> BadRow {
        BadRow::Memory
    }
}

impl<T: Drop> From<AllocFailed<T>> for BadRow {
    fn from(_e: AllocFailed<T>) -> BadRow {
        BadRow::Memory
    }
}

// A number, decimal or after `0x`.
fn number(word: &str) -> Result<u32, BadRow> {
    let parsed = match word.strip_prefix("0x") {
        Some(digits) => u32::from_str_radix(digits, 16),
        None => word.parse::<u32>(),
    };
    parsed.map_err(|_| BadRow::Word)
}

// The offset of a name among names that `/` ends: a loop, since it is summed up and sought at once.
fn offset(names: &str, name: &str) -> Result<u32, BadRow> {
    let mut at = 0usize;
    for one in names.split('/') {
        if one == name {
            return u32::try_from(at).map_err(|_| BadRow::Word);
        }
        at = at.saturating_add(one.len()).saturating_add(1);
    }
    Err(BadRow::Word)
}

// A token cell, the cell of a node's name of one letter, `@` and a property's name for its offset, or a number.
fn cell(word: &str, names: &str) -> Result<u32, BadRow> {
    if let Some(name) = word.strip_prefix("@") {
        return offset(names, name);
    }
    match word {
        "OPEN" => Ok(1),
        "CLOSE" => Ok(2),
        "PROP" => Ok(3),
        "NO_OP" => Ok(4),
        "END" => Ok(9),
        "X" => Ok(0x78000000),
        "Y" => Ok(0x79000000),
        "Z" => Ok(0x7a000000),
        _ => number(word),
    }
}

// The cells of a text; `C*N` is the cell C, N times.
fn cells(heap: Global, text: &str, names: &str) -> Result<Vec<u8>, BadRow> {
    let mut bytes = Vec::new(heap);
    for word in text.split_whitespace() {
        let (one, count) = match word.split_once('*') {
            Some((one, count)) => (one, number(count)?),
            None => (word, 1),
        };
        let cell = cell(one, names)?;
        for _ in 0..count {
            bytes.extend_from_slice(&cell.to_be_bytes())?;
        }
    }
    Ok(bytes)
}

// The names that a field of a row stands for: `-` is none; an empty field is the usual ones.
pub(crate) fn names<'a>(text: &'a str, usual: &'a str) -> &'a str {
    match text {
        "" => usual,
        "-" => "",
        _ => text,
    }
}

// A strings block, `/` for a zero byte.
fn strings(heap: Global, names: &str) -> Result<Vec<u8>, AllocError> {
    let mut bytes = Vec::new(heap);
    for b in names.as_bytes() {
        bytes.push(if *b == b'/' { 0 } else { *b })?;
    }
    Ok(bytes)
}

// A length, as a cell.
fn length(bytes: &[u8]) -> Result<u32, BadRow> {
    u32::try_from(bytes.len()).map_err(|_| BadRow::Word)
}

// Changes of a blob: `AT=N` writes the cell N at a byte offset, `+N` adds N zero bytes at the end.
fn patch(bytes: &mut Vec<u8>, word: &str) -> Result<(), BadRow> {
    if let Some((at, value)) = word.split_once('=') {
        let at = number(at)? as usize;
        let cell = number(value)?.to_be_bytes();
        let start = at.min(bytes.len());
        for (byte, new) in bytes[start..].iter_mut().zip(cell) {
            *byte = new;
        }
    }
    if let Some(count) = word.strip_prefix("+") {
        for _ in 0..number(count)? {
            bytes.push(0)?;
        }
    }
    Ok(())
}

// A blob with a good header, the structure block at 40 and the strings block after it, changed by the patches.
pub(crate) fn blob(
    heap: Global,
    structure: &str,
    names: &str,
    patches: &str,
) -> Result<Vec<u8>, BadRow> {
    let structure = cells(heap, structure, names)?;
    let names = strings(heap, names)?;
    let structure_size = length(&structure)?;
    let strings_size = length(&names)?;
    let at = structure_size.saturating_add(40);
    let mut bytes = Vec::new(heap);
    let total = at.saturating_add(strings_size);
    for cell in [
        0xd00dfeed,
        total,
        40,
        at,
        0,
        17,
        16,
        0,
        strings_size,
        structure_size,
    ] {
        bytes.extend_from_slice(&cell.to_be_bytes())?;
    }
    bytes.extend_from_slice(structure.as_slice())?;
    bytes.extend_from_slice(names.as_slice())?;
    for word in patches.split_whitespace() {
        patch(&mut bytes, word)?;
    }
    Ok(bytes)
}
