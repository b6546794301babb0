use cells::name::Name;
use cells::part::Part;
use faults::place::Place;

// A token of the structure block; names and values are parts of the blob. The name of a property is left unread, since most callers
// pass it over.
#[derive(Clone, Copy, PartialEq, Eq, Debug)]
pub enum Token<'a> {
    Open(Part<'a>),
    Property(Name<'a>, Part<'a>),
    Close,
    Nothing,
    End,
}

// A token, and the place of the next one.
#[derive(Clone, Copy, PartialEq, Eq, Debug)]
pub struct Step<'a> {
    pub token: Token<'a>,
    pub next: Place,
}
