ghost use Rattle.std.specs.Prelude.{◌≡◌, Some};
ghost use Rattle.faults.specs.Reports.{header_report, report, report_text, route_report, token_report};

use super::fault::{HeaderFault, RouteFault, TokenFault};
use super::place::{At, Place};
use std::fmt;

// A fault as it is reported: layer, number, the node's place and the property's, 0 where there is none. Layer and number stay
// numbers: a technician looks a refusal up by them, in docs/REFUSALS.md.
#[derive(Clone, Copy, PartialEq, Eq, Debug)]
pub struct Report {
    pub layer: u8,
    pub number: u8,
    pub node: Place,
    pub property: Place,
}

impl Report {
    fn new(layer: u8, number: u8, node: Place, property: Place) -> Report
        ensures { result ≡ report layer number node.0 property.0 }
    {
        Report {
            layer,
            number,
            node,
            property,
        }
    }
}

impl fmt::Display for Report {
    ghost output = { λ r. Some (report_text r) };

    fn fmt<W: fmt::Write>(&self, f: &mut fmt::Formatter<W>) -> fmt::Result {
        let Report {
            layer,
            number,
            node,
            property,
        } = *self;
        write!(
            f,
            "layer {layer}, number {number}, node {node}, property {property}"
        )
    }
}

// Layer 1; both places are 0.
impl From<HeaderFault> for Report {
    ghost from_gives = { λ fault r. r ≡ header_report fault };

    fn from(fault: HeaderFault) -> Report {
        let number = match fault {
            HeaderFault::Size => 1,
            HeaderFault::Magic => 2,
            HeaderFault::Version => 3,
            HeaderFault::Blocks => 4,
        };
        Report::new(1, number, Place(0), Place(0))
    }
}

// Layer 2, with the token's place; or the header's report.
impl From<TokenFault> for Report {
    ghost from_gives = { λ fault r. r ≡ token_report fault };

    fn from(fault: TokenFault) -> Report {
        match fault {
            TokenFault::Header(f) => f.into(),
            TokenFault::Past(node) => Report::new(2, 5, node, Place(0)),
            TokenFault::Rule(node) => Report::new(2, 6, node, Place(0)),
            TokenFault::Depth(node) => Report::new(2, 7, node, Place(0)),
        }
    }
}

// Layer 3, with both places; or the report of the fault that is held.
impl From<RouteFault> for Report {
    ghost from_gives = { λ fault r. r ≡ route_report fault };

    fn from(fault: RouteFault) -> Report {
        let (number, at) = match fault {
            RouteFault::Token(f) => return f.into(),
            RouteFault::Value(at) => (8, at),
            RouteFault::Phandle(at) => (9, at),
            RouteFault::NoNode(at) => (12, at),
            RouteFault::NoParent(node) => (13, At::missing(node)),
            RouteFault::Short(at) => (14, at),
            RouteFault::NoEnd(at) => (15, at),
            RouteFault::Row(at) => (16, at),
            RouteFault::NoRow(at) => (17, at),
            RouteFault::TooManyRows(at) => (18, at),
        };
        Report::new(3, number, at.node, at.property)
    }
}
