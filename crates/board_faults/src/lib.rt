//! Why a tree has no board: every fault of its plan and of its assembly, with what is reported of it.
//! The definition is in specs/BoardReports.antt.
#![tactic(auto)]

ghost use Rattle.std.specs.Prelude.{◌≡◌};
ghost use Rattle.board_faults.specs.BoardReports.{board_report};
ghost use Rattle.board_faults.specs.declared.BoardFault.TheVariants.{Route};
ghost use Rattle.faults.specs.declared.fault.RouteFault.TheVariants.{Token};

use faults::fault::{RouteFault, TokenFault};
use faults::place::{At, Place};
use faults::report::Report;

// Why a tree has no board.
#[derive(Clone, Copy, PartialEq, Eq, Debug)]
pub enum BoardFault {
    // The fault of reading the tree or of a specifier's route, held whole.
    Route(RouteFault),
    // A controller that names no kind, or whose `#interrupt-cells` is missing or not its kind's.
    Kind(At),
    // No controller, or more than four.
    Controllers,
    // A specifier that ends at no input of its controller, or has no such sense.
    Input(At),
    // A 257th route.
    Routes(At),
    // A controller with two specifiers, no root, two roots, or a controller that does not lead to the root.
    Root,
    // A second specifier that ends at one input.
    Second(At),
    // A controller was handed over with another width than the tree's, or with a wired line where a specifier ends.
    Parts,
}

impl From<RouteFault> for BoardFault {
    ghost from_gives = { λ f r. r ≡ Route f };

    fn from(f: RouteFault) -> BoardFault {
        BoardFault::Route(f)
    }
}

impl From<TokenFault> for BoardFault {
    ghost from_gives = { λ f r. r ≡ Route (Token f) };

    fn from(f: TokenFault) -> BoardFault {
        BoardFault::Route(RouteFault::Token(f))
    }
}

// Layer 4, with the places where there are any; or the report of the fault that is held.
impl From<BoardFault> for Report {
    ghost from_gives = { λ fault r. r ≡ board_report fault };

    fn from(fault: BoardFault) -> Report {
        let none = At::missing(Place(0));
        let (number, at) = match fault {
            BoardFault::Route(f) => return f.into(),
            BoardFault::Kind(at) => (10, at),
            BoardFault::Controllers => (11, none),
            BoardFault::Input(at) => (19, at),
            BoardFault::Routes(at) => (20, at),
            BoardFault::Root => (21, none),
            BoardFault::Second(at) => (22, at),
            BoardFault::Parts => (23, none),
        };
        Report {
            layer: 4,
            number,
            node: at.node,
            property: at.property,
        }
    }
}
