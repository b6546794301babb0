// Answers and records in words.
use controller::call::CallFault;
use line::row::{Row, Sense};
use std::fmt;

// The answer of a call on one line.
#[derive(Drop)]
pub struct Answer(pub Result<(), CallFault>);

impl fmt::Display for Answer {
    fn fmt<W: fmt::Write>(&self, f: &mut fmt::Formatter<W>) -> fmt::Result {
        let fault = match self.0 {
            Ok(()) => return write!(f, "done"),
            Err(fault) => fault,
        };
        let reason = match fault {
            CallFault::NoLine => "there is no such line",
            CallFault::Wired => "the line is wired",
            CallFault::NotInService => "the line is not in service",
            CallFault::InService => "the line is in service",
        };
        write!(f, "refused with {}, {reason}", u8::from(fault))
    }
}

// The record of a line.
#[derive(Drop)]
pub struct Record(pub Row);

impl fmt::Display for Record {
    fn fmt<W: fmt::Write>(&self, f: &mut fmt::Formatter<W>) -> fmt::Result {
        let row = self.0;
        let sense = match row.sense {
            Sense::Edge => "edge",
            Sense::Following => "following",
            Sense::Gated => "gated",
        };
        let level = if row.level { "high" } else { "low" };
        let request = if row.request {
            "requested"
        } else {
            "not requested"
        };
        let service = if row.service {
            "in service"
        } else {
            "not in service"
        };
        let mask = if row.mask { "masked" } else { "unmasked" };
        write!(f, "{sense}, {level}, {request}, {service}, {mask}")
    }
}
