ghost use Rattle.std.specs.Prelude.{◌≡◌};
ghost use Rattle.line.specs.Steps.{claimed, completed, driven, masked, reset, sensed, stepped};
ghost use Rattle.line.specs.Lines.{row_of};

use crate::record::Line;
use crate::row::{Sense, Step};

// Each step writes the new line whole, every field of it: a struct that carries a rule takes no `..self`.
impl Line {
    // Low to high sets the request, of a gated line unless it is in service; high to low clears it of a following line
    // only. Driving a line to the level that it has changes nothing.
    pub fn drive(self, high: bool) -> Line
        ensures { row_of result ≡ driven high (row_of self) }
    {
        let request = match (self.level, high) {
            (false, true) => match self.sense {
                Sense::Edge | Sense::Following => true,
                Sense::Gated => self.request || !self.service,
            },
            (true, false) => match self.sense {
                Sense::Edge | Sense::Gated => self.request,
                Sense::Following => false,
            },
            _ => self.request,
        };
        Line {
            sense: self.sense,
            level: high,
            request,
            service: self.service,
            mask: self.mask,
        }
    }

    // Sets or clears the mask only.
    pub fn set_mask(self, on: bool) -> Line
        ensures { row_of result ≡ masked on (row_of self) }
    {
        Line {
            sense: self.sense,
            level: self.level,
            request: self.request,
            service: self.service,
            mask: on,
        }
    }

    // Sets the sense, makes the level low and clears the request.
    pub fn set_sense(self, sense: Sense) -> Line
        ensures { row_of result ≡ sensed sense (row_of self) }
    {
        Line {
            sense,
            level: false,
            request: false,
            service: self.service,
            mask: self.mask,
        }
    }

    // A claim that names the line puts it in service and clears the request, except of a following line.
    pub fn claim(self) -> Line
        ensures { row_of result ≡ claimed (row_of self) }
    {
        let request = match self.sense {
            Sense::Edge | Sense::Gated => false,
            Sense::Following => self.request,
        };
        Line {
            sense: self.sense,
            level: self.level,
            request,
            service: true,
            mask: self.mask,
        }
    }

    // A completion ends the service; it sets the request of a gated line that is high.
    pub fn complete(self) -> Line
        ensures { row_of result ≡ completed (row_of self) }
    {
        let request = match self.sense {
            Sense::Edge | Sense::Following => self.request,
            Sense::Gated => self.request || self.level,
        };
        Line {
            sense: self.sense,
            level: self.level,
            request,
            service: false,
            mask: self.mask,
        }
    }

    // Low, neither requested nor in service, masked; the sense stays.
    pub fn reset(self) -> Line
        ensures { row_of result ≡ reset (row_of self) }
    {
        Line::fresh(self.sense)
    }

    // The line after one step. A match, since a step is data: a history has a list of them.
    pub fn step(self, step: Step) -> Line
        ensures { row_of result ≡ stepped step (row_of self) }
    {
        match step {
            Step::Drive(high) => self.drive(high),
            Step::Mask(on) => self.set_mask(on),
            Step::Sense(sense) => self.set_sense(sense),
            Step::Claim => self.claim(),
            Step::Complete => self.complete(),
            Step::Reset => self.reset(),
        }
    }
}
