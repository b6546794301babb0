// One row of a table: NAME | CELLS | PATCHES | STRINGS | OUTCOME. An outcome that begins with `routes` is the list of all
// specifiers of the tree, in blob order.
use crate::blob::{BadRow, OPENING, ROUTING, blob, names};
use crate::outcome::{counts, outcome};
use crate::routes::routes;
use listing::stop::Stop;
use std::alloc::{AllocError, Global};

// Whether every front of a short blob is refused for its size, and more bytes behind it change nothing.
fn cut_well<F: Fn(&[u8]) -> Result<String, Stop>>(
    heap: Global,
    bytes: &mut Vec<u8>,
    want: &str,
    gives: &F,
) -> Result<bool, AllocError>
    requires { F.IsAlwaysCallable gives.now }
{
    if bytes.len() > 800 || want.starts_with("refused") {
        return Ok(true);
    }
    for n in 0..bytes.len() {
        let front = outcome(heap, &bytes.as_slice()[0..n], gives)?;
        if front.as_str() != "refused 1 1 0 0" {
            return Ok(false);
        }
    }
    for more in [0, 9, 255] {
        bytes.push(more)?;
        let longer = outcome(heap, bytes.as_slice(), gives)?;
        if longer.as_str() != want {
            return Ok(false);
        }
    }
    Ok(true)
}

// What a row gives, where it is not what the row says.
pub(crate) fn wrong_outcome(heap: Global, line: &str) -> Result<Option<String>, AllocError> {
    let mut fields = line.split('|').map(|field| field.trim());
    let _name = fields.next();
    let cells = fields.next().unwrap_or("");
    let patches = fields.next().unwrap_or("");
    let strings = fields.next().unwrap_or("");
    let want = fields.next().unwrap_or("");
    let routing = want.starts_with("routes");
    let gives = |bytes: &[u8]| if routing {
        routes(heap, bytes)
    } else {
        counts(heap, bytes)
    };
    let usual = if routing { ROUTING } else { OPENING };
    let mut bytes = match blob(heap, cells, names(strings, usual), patches) {
        Ok(bytes) => bytes,
        Err(BadRow::Memory) => return Err(AllocError),
        Err(BadRow::Word) => return Ok(Some(String::from_str(heap, "a word is not known")?)),
    };
    let got = outcome(heap, bytes.as_slice(), &gives)?;
    if got.as_str() != want {
        return Ok(Some(got));
    }
    if patches.is_empty() && !cut_well(heap, &mut bytes, want, &gives)? {
        return Ok(Some(String::from_str(heap, "a front or a longer string gives something else")?));
    }
    Ok(None)
}
