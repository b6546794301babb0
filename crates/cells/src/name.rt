ghost use Rattle.std.specs.Prelude.{◌≡◌, ◌==◌, length, nat_lt, position};
ghost use Rattle.std.specs.Str.{bytes_eq};
ghost use Rattle.cells.specs.Cells.{before_zero, leading_nonzero, name_bytes};

use faults::place::Place;
use memchr::memchr;
use std::fmt;

// A name that has not been read: the place of its first byte, and the bytes from there to the end of its block, of which those
// before the first zero byte are the name. Its bytes are read when they are asked for.
#[derive(Clone, Copy)]
pub struct Name<'a> {
    pub place: Place,
    pub(crate) rest: &'a [u8],
}

impl<'a> Name<'a> {
    // The name's bytes, without the zero byte after them.
    pub fn bytes(&self) -> &'a [u8]
        ensures { result.now ≡ name_bytes self.now }
    {
        before_zero(self.rest)
    }

    // Whether these are the name's bytes. At most one byte more than these is read, and that one first, since most names are longer or
    // shorter.
    #[tactic(auto, using(crate::proofs::Names::cut_same))]
    pub fn is(&self, wanted: &[u8]) -> bool
        ensures { result ≡ bytes_eq (name_bytes self.now) wanted.now }
    {
        match self.rest.get(..=wanted.len()) {
            Some(front) => front[wanted.len()] == 0 && before_zero(front) == wanted,
            None => self.bytes() == wanted,
        }
    }
}

// Names are equal that have the same place and the same bytes; what stands after a name does not count.
impl<'a> PartialEq for Name<'a> {
    ghost use Rattle.std.proofs.Common.{rules};
    ghost use Rattle.std.specs.Cmp.Lexicographic.{pointwise};
    ghost use Rattle.std.specs.Cmp.Rules.{comparing};
    ghost use Rattle.std.specs.Ordering.{eq_of_both, on};

    ghost eq = { eq_of_both (on (λ n. n.place.0) ◌==◌) (on name_bytes (pointwise ◌==◌)) };

    ghost laws = { Prim.search (comparing, rules) };

    fn eq(&self, other: &Self) -> bool {
        self.place == other.place && self.bytes() == other.bytes()
    }
}

impl<'a> Eq for Name<'a> {
    ghost use Rattle.std.proofs.Common.{rules};
    ghost use Rattle.std.specs.Cmp.Rules.{comparing};

    ghost laws = { Prim.search (comparing, rules) };
}

impl<'a> fmt::Debug for Name<'a> {
    fn fmt<W: fmt::Write>(&self, f: &mut fmt::Formatter<W>) -> fmt::Result {
        f.debug_struct("Name")
            .field("place", &self.place)
            .field("bytes", &self.bytes())
            .finish()
    }
}

// The bytes before the first zero byte; all of them where there is none.
fn before_zero(bytes: &[u8]) -> &[u8]
    ensures { result.now ≡ before_zero bytes.now }
{
    &bytes[..first_zero(bytes).unwrap_or(bytes.len())]
}

// Where the first zero byte stands.
#[tactic(auto, using(crate::proofs::FirstBytes::first_position))]
pub(crate) fn first_zero(bytes: &[u8]) -> Option<usize>
    ensures { result ≡ position (λ byte. byte == 0) bytes.now }
{
    memchr(0, bytes)
}

// Whether there is a zero byte. The byte at `tried` is looked at first.
#[tactic(auto, using(crate::proofs::Names::zero_stops))]
pub(crate) fn has_zero(bytes: &[u8], tried: usize) -> bool
    ensures { result ≡ nat_lt (leading_nonzero bytes.now) (length bytes.now) }
{
    bytes.get(tried).is_some_and(|byte| *byte == 0) || first_zero(bytes).is_some()
}
