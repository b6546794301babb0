ghost use Rattle.std.specs.Prelude.{◌≡◌};
ghost use Rattle.std.specs.IoError.{error_kind};
ghost use Rattle.walk_tests.specs.declared.error.WalkError.TheVariants.{OutOfMemory, UnknownWord};
ghost use Rattle.walk_tests.specs.Kinds.{kind_of};

use std::alloc::AllocError;
use std::io;
use std::num::ParseIntError;

// Why a walk is not run to its end.
#[derive(Clone, Copy, PartialEq, Eq, Debug)]
pub enum WalkError {
    // A word of the walk is missing or not known.
    UnknownWord,
    // There is no memory for what the walk makes or writes.
    OutOfMemory,
}

impl From<AllocError> for WalkError {
    ghost from_gives = { λ _ error. error ≡ OutOfMemory };

    fn from(_error: AllocError) -> WalkError {
        WalkError::OutOfMemory
    }
}

impl From<ParseIntError> for WalkError {
    ghost from_gives = { λ _ error. error ≡ UnknownWord };

    fn from(_error: ParseIntError) -> WalkError {
        WalkError::UnknownWord
    }
}

// Either ends the program with the error for bad data.
impl From<WalkError> for io::Error {
    ghost from_gives = { λ why error. error_kind error ≡ kind_of why };

    fn from(why: WalkError) -> io::Error {
        let kind = match why {
            WalkError::UnknownWord => io::ErrorKind::InvalidData,
            WalkError::OutOfMemory => io::ErrorKind::InvalidData,
        };
        io::Error::from(kind)
    }
}
