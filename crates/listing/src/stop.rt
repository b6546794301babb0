ghost use Rattle.std.specs.Prelude.{◌≡◌};
ghost use Rattle.faults.specs.declared.fault.RouteFault.TheVariants.{Token};
ghost use Rattle.listing.specs.declared.stop.Stop.TheVariants.{Fault, Memory};
ghost use Rattle.listing.specs.Stops.{reported};

use faults::fault::{RouteFault, TokenFault};
use faults::report::Report;
use std::alloc::{AllocError, AllocFailed};

// Why a listing ends early.
#[derive(Clone, Copy, PartialEq, Eq, Debug)]
pub enum Stop {
    Fault(RouteFault),
    Memory,
}

impl Stop {
    // The fault's report, or that memory is lacking.
    pub fn report(self) -> Result<Report, AllocError>
        ensures { result ≡ reported self }
    {
        match self {
            Stop::Fault(fault) => Ok(Report::from(fault)),
            Stop::Memory => Err(AllocError),
        }
    }
}

impl From<RouteFault> for Stop {
    ghost from_gives = { λ f r. r ≡ Fault f };

    fn from(f: RouteFault) -> Stop {
        Stop::Fault(f)
    }
}

impl From<TokenFault> for Stop {
    ghost from_gives = { λ f r. r ≡ Fault (Token f) };

    fn from(f: TokenFault) -> Stop {
        Stop::Fault(RouteFault::Token(f))
    }
}

impl From<AllocError> for Stop {
    ghost from_gives = { λ e r. r ≡ Memory };

    fn from(_e: AllocError) -> Stop {
        Stop::Memory
    }
}

impl<T: Drop> From<AllocFailed<T>> for Stop {
    ghost from_gives = { λ e r. r ≡ Memory };

    fn from(_e: AllocFailed<T>) -> Stop {
        Self::Memory
    }
}
