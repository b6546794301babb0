ghost use Rattle.std.specs.Prelude.{◌≡◌};
ghost use Rattle.controller.specs.Calls.{allowance, number_of, step_of};
ghost use Rattle.line.specs.Lines.{row_of};

use line::record::Line;
use line::row::{Sense, Step};

// Why a call on a line is refused, in the order of testing: 25, then 31, then 30 or 32.
#[derive(Clone, Copy, PartialEq, Eq, Debug)]
pub enum CallFault {
    // The line is at or above the width.
    NoLine,
    // The line is wired.
    Wired,
    // A completion of a line that is not in service.
    NotInService,
    // A sense change of a line that is in service.
    InService,
}

// The number of a refusal: 25, 31, 30 or 32.
impl From<CallFault> for u8 {
    ghost from_gives = { λ fault number. number ≡ number_of fault };

    fn from(fault: CallFault) -> u8 {
        match fault {
            CallFault::NoLine => 25,
            CallFault::Wired => 31,
            CallFault::NotInService => 30,
            CallFault::InService => 32,
        }
    }
}

// What a call does to one line.
#[derive(Clone, Copy, PartialEq, Eq, Debug)]
pub enum Change {
    // Drives it high or low.
    Drive(bool),
    // Masks or unmasks it.
    Mask(bool),
    // Changes its sense.
    Sense(Sense),
    // Completes it.
    Complete,
}

// The step that a change makes of the line.
impl From<Change> for Step {
    ghost from_gives = { λ change step. step ≡ step_of change };

    fn from(change: Change) -> Step {
        match change {
            Change::Drive(high) => Step::Drive(high),
            Change::Mask(on) => Step::Mask(on),
            Change::Sense(sense) => Step::Sense(sense),
            Change::Complete => Step::Complete,
        }
    }
}

impl Change {
    // Whether an open line takes it: a completion needs a line in service, a sense change one that is not.
    pub fn allowed(self, line: Line) -> Result<(), CallFault>
        ensures { result ≡ allowance self (row_of line) }
    {
        match (self, line.serves()) {
            (Change::Sense(_), true) => Err(CallFault::InService),
            (Change::Complete, false) => Err(CallFault::NotInService),
            _ => Ok(()),
        }
    }
}
