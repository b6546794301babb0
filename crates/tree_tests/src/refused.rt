ghost use Rattle.std.specs.Prelude.{Some};
ghost use Rattle.tree_tests.specs.Texts.{refused_text};

use faults::report::Report;
use std::fmt;

// A refusal as a row writes it: layer, number and the two places.
#[derive(Clone, Copy, PartialEq, Eq, Debug)]
pub struct Refused(pub Report);

impl fmt::Display for Refused {
    ghost output = { λ refused. Some (refused_text refused.0) };

    fn fmt<W: fmt::Write>(&self, f: &mut fmt::Formatter<W>) -> fmt::Result {
        let Report {
            layer,
            number,
            node,
            property,
        } = self.0;
        write!(f, "refused {layer} {number} {node} {property}")
    }
}
