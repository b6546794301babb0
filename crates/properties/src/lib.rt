//! The properties of a node: the first from a place on, and the look-ahead for one of a name, which leaves the walk's cursor as it
//! was; and the place where such a search may begin as well. The definitions are in specs/Properties.antt.
#![tactic(auto)]

ghost use Rattle.std.specs.Prelude.{◌≡◌};
ghost use Rattle.fdt.specs.Reads.{tokens_of};
ghost use Rattle.properties.specs.Properties.{PropertyGoes, first_property, place_of, property_seen, sought};

use cells::name::Name;
use cells::part::Part;
use faults::fault::TokenFault;
use faults::place::Place;
use fdt::blob::Blob;
use fdt::cursor::Cursor;
use fdt::token::Token;

// A property: the place of its token, its name and value, and the place of the next token.
#[derive(Clone, Copy, PartialEq, Eq, Debug)]
pub struct Property<'a> {
    pub place: Place,
    pub name: Name<'a>,
    pub value: Part<'a>,
    pub next: Place,
}

// Lends the cursor, and brings it back to where it was saved when it is dropped.
struct Rewind<'c> {
    cursor: &'c mut Cursor,
    saved: Cursor,
}

impl Drop for Rewind<'_> {
    fn drop(self)
        ensures { self.exit.0.now ≡ self.entry.saved }
    {
        *self.cursor = self.saved;
        let Rewind {
            cursor: _,
            saved: _,
        } = self;
    }
}

// The first property from a place on, before the next node, close or end; 5 where a token cannot be read.
#[tactic(auto, using(crate::proofs::Goes::first_goes))]
pub fn property_from<'a>(blob: &Blob<'a>, place: Place) -> Result<Option<Property<'a>>, TokenFault>
    ensures is { property_seen result ≡ first_property (tokens_of blob.now place.0) }
    ensures goes { PropertyGoes blob.now.header place.0 result }
{
    for read in blob.tokens(place) {
        let (place, step) = read?;
        match step.token {
            Token::Property(name, value) => {
                return Ok(Some(Property {
                    place,
                    name,
                    value,
                    next: step.next,
                }));
            }
            Token::Nothing => {}
            Token::Open(_) | Token::Close | Token::End => return Ok(None),
        }
    }
    Ok(None)
}

// The first property of this name, of the node that the cursor stands in, from the cursor on; 5 where a token
// cannot be read. It looks ahead with the walk's own cursor, which a guard brings back on every way out, found, absent or refused; so
// the loop moves that cursor and is no `for` over the tokens.
pub fn look_ahead<'a>(
    blob: &Blob<'a>,
    cursor: &mut Cursor,
    name: &[u8],
) -> Result<Option<Property<'a>>, TokenFault>
    ensures back { cursor.new ≡ cursor.old }
    ensures finds { property_seen result ≡ sought name.now (tokens_of blob.now cursor.old.place.0) }
{
    let saved = *cursor;
    let guard = Rewind { cursor, saved };
    loop {
        let at = guard.cursor.place;
        let step = blob.token_at(at)?;
        guard.cursor.place = step.next;
        match step.token {
            Token::Property(found, value) if found.is(name) => {
                return Ok(Some(Property {
                    place: at,
                    name: found,
                    value,
                    next: step.next,
                }));
            }
            Token::Nothing | Token::Property(_, _) => {}
            Token::Open(_) | Token::Close | Token::End => return Ok(None),
        }
    }
}

// From a place on, that of the first token which is neither a no-op nor a property of another name, or which cannot be read. A search
// for this name from there on finds what it finds from the first place on.
pub fn place_of(blob: &Blob<'_>, place: Place, name: &[u8]) -> Place
    ensures is { result.0 ≡ place_of name.now place.0 (tokens_of blob.now place.0) }
    ensures same { sought name.now (tokens_of blob.now result.0) ≡ sought name.now (tokens_of blob.now place.0) }
{
    let mut at = place;
    while let Ok(step) = blob.token_at(at) {
        match step.token {
            Token::Property(found, _) if found.is(name) => return at,
            Token::Nothing | Token::Property(_, _) => at = step.next,
            Token::Open(_) | Token::Close | Token::End => return at,
        }
    }
    at
}
