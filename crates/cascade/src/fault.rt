ghost use Rattle.std.specs.Prelude.{◌≡◌};
ghost use Rattle.cascade.specs.Questions.{number_of};

// Why a child cannot be cascaded at a line of a parent, in the order of testing.
#[derive(Clone, Copy, PartialEq, Eq, Debug)]
pub enum CascadeFault {
    // The line is at or above the parent's width.
    NoLine,
    // The line is wired at the parent.
    Wired,
    // The two widths are over 256 together.
    TooWide,
}

// The number of a refusal: 25, 31 or 33.
impl From<CascadeFault> for u8 {
    ghost from_gives = { λ fault number. number ≡ number_of fault };

    fn from(fault: CascadeFault) -> u8 {
        match fault {
            CascadeFault::NoLine => 25,
            CascadeFault::Wired => 31,
            CascadeFault::TooWide => 33,
        }
    }
}
