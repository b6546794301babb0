ghost use Rattle.std.specs.Prelude.{◌≡◌, ◌≢◌, true};
ghost use Rattle.search.specs.Exactly.{Exactly};
ghost use Rattle.compare.specs.declared.verdict.Verdict.TheVariants.{Claims, Record, Sense, Unchanged};
ghost use Rattle.compare.specs.Verdicts.{OtherClaims, OtherRecord, Same};

use crate::standing::Standing;
use line::row::Row;
use std::fmt;

// What became of a device from an old board to a new one.
#[derive(Clone, Copy, PartialEq, Eq, Debug)]
pub enum Verdict {
    // Both trees have it, and sense, claims and record agree.
    Unchanged,
    // Both have it, and the first that differs is its sense, its claims or its record.
    Sense,
    Claims,
    Record,
    // Only the old tree has it, or only the new one.
    Removed,
    Added,
}

impl Verdict {
    // The verdict on a device that both trees have.
    pub fn of(old: &Standing, new: &Standing) -> Verdict
        ensures unchanged { Exactly (result ≡ Unchanged) (Same old.now new.now) }
        ensures sense { Exactly (result ≡ Sense) (old.now.sense ≢ new.now.sense) }
        ensures claims { Exactly (result ≡ Claims) (OtherClaims old.now new.now) }
        ensures row { Exactly (result ≡ Record) (OtherRecord old.now new.now) }
    {
        if old.sense != new.sense {
            Verdict::Sense
        } else if old.claims != new.claims {
            Verdict::Claims
        } else if !same_row(old.row, new.row) {
            Verdict::Record
        } else {
            Verdict::Unchanged
        }
    }
}

// Whether two records are equal.
#[tactic(auto, using(crate::proofs::Equals::rows_equal))]
fn same_row(old: Row, new: Row) -> bool
    ensures { Exactly (result ≡ true) (old ≡ new) }
{
    old == new
}

impl fmt::Display for Verdict {
    fn fmt<W: fmt::Write>(&self, f: &mut fmt::Formatter<W>) -> fmt::Result {
        let word = match self {
            Verdict::Unchanged => "unchanged",
            Verdict::Sense => "changed sense",
            Verdict::Claims => "changed claims",
            Verdict::Record => "changed record",
            Verdict::Removed => "removed",
            Verdict::Added => "added",
        };
        write!(f, "{word}")
    }
}
