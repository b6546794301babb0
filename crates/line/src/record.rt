ghost use Rattle.std.specs.Prelude.{false, true, ◌≡◌};
ghost use Rattle.line.specs.declared.row.Sense.TheVariants.{Following, Gated};

use crate::row::Sense;

// The record of one line. A following line's request is its level, and a gated line in service is not requested. It has the fields of
// a row and not a row: each step writes a record whole, and the rule is proved of it there.
#[derive(Clone, Copy, PartialEq, Eq, Debug)]
pub struct Line {
    pub(crate) sense: Sense,
    pub(crate) level: bool,
    pub(crate) request: bool,
    pub(crate) service: bool,
    pub(crate) mask: bool,
    ghost follows: { sense ≡ Following → request ≡ level },
    ghost gated: { sense ≡ Gated → service ≡ true → request ≡ false },
}
