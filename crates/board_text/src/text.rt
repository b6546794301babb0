ghost use Rattle.std.specs.Prelude.{Some};
ghost use Rattle.board_text.specs.Texts.{answer_text, call_text, record_text, sense_text};

use history::call::{Answer, Call};
use line::row::{Row, Sense};
use std::fmt;

// A call: its letter and its route, of which a claim has none.
#[derive(Drop)]
pub struct CallText(pub Call);

impl fmt::Display for CallText {
    ghost output = { λ text. Some (call_text text.0) };

    fn fmt<W: fmt::Write>(&self, f: &mut fmt::Formatter<W>) -> fmt::Result {
        match self.0 {
            Call::Drive(route, true) => write!(f, "H {route}"),
            Call::Drive(route, false) => write!(f, "L {route}"),
            Call::Mask(route, true) => write!(f, "M {route}"),
            Call::Mask(route, false) => write!(f, "U {route}"),
            Call::Claim => write!(f, "C"),
            Call::Complete(route) => write!(f, "E {route}"),
        }
    }
}

// An answer: that the call was done, the number of its refusal, or the route that a claim names, or none.
#[derive(Drop)]
pub struct AnswerText(pub Answer);

impl fmt::Display for AnswerText {
    ghost output = { λ text. Some (answer_text text.0) };

    fn fmt<W: fmt::Write>(&self, f: &mut fmt::Formatter<W>) -> fmt::Result {
        match self.0 {
            Answer::Done => write!(f, "done"),
            Answer::Named(Some(route)) => write!(f, "named {route}"),
            Answer::Named(None) => write!(f, "none"),
            Answer::Refused(number) => write!(f, "refused {number}"),
        }
    }
}

// A sense in one word.
#[derive(Drop)]
pub struct SenseText(pub Sense);

impl fmt::Display for SenseText {
    ghost output = { λ text. Some (sense_text text.0) };

    fn fmt<W: fmt::Write>(&self, f: &mut fmt::Formatter<W>) -> fmt::Result {
        match self.0 {
            Sense::Edge => write!(f, "edge"),
            Sense::Following => write!(f, "following"),
            Sense::Gated => write!(f, "gated"),
        }
    }
}

// The four digits of a record: level, request, service and mask, 1 for true.
#[derive(Drop)]
pub struct RecordText(pub Row);

impl fmt::Display for RecordText {
    ghost output = { λ text. Some (record_text text.0) };

    fn fmt<W: fmt::Write>(&self, f: &mut fmt::Formatter<W>) -> fmt::Result {
        let Row {
            level,
            request,
            service,
            mask,
            ..
        } = self.0;
        write!(
            f,
            "{}{}{}{}",
            u8::from(level),
            u8::from(request),
            u8::from(service),
            u8::from(mask)
        )
    }
}
