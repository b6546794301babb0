ghost use Rattle.std.specs.Prelude.{◌≡◌};
ghost use Rattle.faults.specs.declared.fault.RouteFault.TheVariants.{Token};
ghost use Rattle.faults.specs.declared.fault.TokenFault.TheVariants.{Header};

use super::place::{At, Place};

// Why a header is refused, in the order of testing.
#[derive(Clone, Copy, PartialEq, Eq, Debug)]
pub enum HeaderFault {
    // Fewer than 40 bytes, or a total size under 40, over 65,536 or over the bytes handed in.
    Size,
    // Another magic number.
    Magic,
    // A version under 17, or a last compatible version over 17.
    Version,
    // A block that begins in the header or passes the total size, or a structure block that is not made of cells.
    Blocks,
}

// Why the tokens are refused, each with the place of the token; the smaller number counts.
#[derive(Clone, Copy, PartialEq, Eq, Debug)]
pub enum TokenFault {
    // The header's fault, held whole.
    Header(HeaderFault),
    // An unknown cell, or a cell, name or value that passes its block's end.
    Past(Place),
    // A token that may not stand here.
    Rule(Place),
    // A node deeper than 16.
    Depth(Place),
}

impl From<HeaderFault> for TokenFault {
    ghost from_gives = { λ f r. r ≡ Header f };

    fn from(f: HeaderFault) -> TokenFault {
        TokenFault::Header(f)
    }
}

// Why a tree is not opened, or a specifier has no route.
#[derive(Clone, Copy, PartialEq, Eq, Debug)]
pub enum RouteFault {
    // The fault of the tokens or of the header, held whole.
    Token(TokenFault),
    // A property of wrong length or value.
    Value(At),
    // A phandle that is 0, 0xffffffff or used by an earlier node.
    Phandle(At),
    // A phandle of no node.
    NoNode(At),
    // No interrupt parent, with the device's place.
    NoParent(Place),
    // A specifier that is cut short.
    Short(At),
    // An arrival at neither a controller nor a nexus, or at a node without `#interrupt-cells`.
    NoEnd(At),
    // A row that passes the map's end, a mask of wrong length, no `#address-cells`, or too few cells in `reg`.
    Row(At),
    // No row of the map matches.
    NoRow(At),
    // A ninth row would be taken.
    TooManyRows(At),
}

impl From<TokenFault> for RouteFault {
    ghost from_gives = { λ f r. r ≡ Token f };

    fn from(f: TokenFault) -> RouteFault {
        RouteFault::Token(f)
    }
}
