// Records, offers and outcomes as text.
use controller::call::CallFault;
use line::record::Line;
use line::row::{Row, Sense};
use std::fmt;

// The record of a line in five letters, one a field, or the number of the refusal.
#[derive(Drop)]
pub struct Record(pub Result<Line, CallFault>);

impl fmt::Display for Record {
    fn fmt<W: fmt::Write>(&self, f: &mut fmt::Formatter<W>) -> fmt::Result {
        let row = match self.0 {
            Ok(line) => Row::from(line),
            Err(fault) => return write!(f, "{}", u8::from(fault)),
        };
        f.write_str(match row.sense {
            Sense::Edge => "e",
            Sense::Following => "f",
            Sense::Gated => "g",
        })?;
        f.write_str(if row.level { "h" } else { "l" })?;
        f.write_str(if row.request { "r" } else { "-" })?;
        f.write_str(if row.service { "s" } else { "-" })?;
        f.write_str(if row.mask { "m" } else { "-" })
    }
}

// The offer.
#[derive(Drop)]
pub struct Offer(pub Option<usize>);

impl fmt::Display for Offer {
    fn fmt<W: fmt::Write>(&self, f: &mut fmt::Formatter<W>) -> fmt::Result {
        match self.0 {
            Some(line) => write!(f, "offer {line}"),
            None => write!(f, "offer none"),
        }
    }
}

// What a call came to: done, or refused with a number.
#[derive(Drop)]
pub struct Outcome(pub Result<(), u8>);

impl fmt::Display for Outcome {
    fn fmt<W: fmt::Write>(&self, f: &mut fmt::Formatter<W>) -> fmt::Result {
        match self.0 {
            Ok(()) => write!(f, "done"),
            Err(number) => write!(f, "refused {number}"),
        }
    }
}
