ghost use Rattle.std.specs.Prelude.{◌≡◌};
ghost use Rattle.line.specs.Rows.{Legal, fresh, made, rests, waits};
ghost use Rattle.line.specs.Lines.{row_of};

use crate::record::Line;
use crate::row::{Row, Sense};

// The line of a row, whatever the row: a following line's request is its level, a gated line in service is not
// requested, and everything else is the row's.
impl From<Row> for Line {
    ghost from_gives = { λ row line. row_of line ≡ made row };

    fn from(row: Row) -> Line {
        let request = match row.sense {
            Sense::Edge => row.request,
            Sense::Following => row.level,
            Sense::Gated => row.request && !row.service,
        };
        Line {
            sense: row.sense,
            level: row.level,
            request,
            service: row.service,
            mask: row.mask,
        }
    }
}

// The record as plain data, which is a row of a record that can exist.
impl From<Line> for Row {
    ghost from_gives = { λ line row. (row ≡ row_of line) × Legal row };

    fn from(line: Line) -> Row {
        Row {
            sense: line.sense,
            level: line.level,
            request: line.request,
            service: line.service,
            mask: line.mask,
        }
    }
}

impl Line {
    // A line of this sense as a reset leaves it.
    pub fn fresh(sense: Sense) -> Line
        ensures { row_of result ≡ fresh sense }
    {
        Line {
            sense,
            level: false,
            request: false,
            service: false,
            mask: true,
        }
    }

    // Requested, not in service and unmasked.
    pub fn waits(self) -> bool
        ensures { result ≡ waits (row_of self) }
    {
        self.request && !self.service && !self.mask
    }

    // In service.
    pub fn serves(self) -> bool
        ensures { result ≡ (row_of self).service }
    {
        self.service
    }

    // Masked, or neither requested nor in service.
    pub fn rests(self) -> bool
        ensures { result ≡ rests (row_of self) }
    {
        self.mask || !self.request && !self.service
    }
}
