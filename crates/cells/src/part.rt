use faults::place::Place;

// A part of the blob, with the place of its first byte.
#[derive(Clone, Copy, PartialEq, Eq, Debug)]
pub struct Part<'a> {
    pub place: Place,
    pub bytes: &'a [u8],
}
