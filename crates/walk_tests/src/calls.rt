// The calls of a walk, one a line.
use super::error::WalkError;
use super::record::{Offer, Outcome, Record};
use super::walk::Walk;
use controller::call::{CallFault, Change};
use controller::interface::Controller;
use line::row::Sense;

// What a word does to a line.
fn change_of(word: &str) -> Option<Change> {
    match word {
        "high" => Some(Change::Drive(true)),
        "low" => Some(Change::Drive(false)),
        "mask" => Some(Change::Mask(true)),
        "unmask" => Some(Change::Mask(false)),
        "edge" => Some(Change::Sense(Sense::Edge)),
        "following" => Some(Change::Sense(Sense::Following)),
        "gated" => Some(Change::Sense(Sense::Gated)),
        "complete" => Some(Change::Complete),
        _ => None,
    }
}

// Makes a change by the call that has its name, so that the walks try the four named calls too.
fn make<C: Controller>(controller: &mut C, line: usize, change: Change) -> Result<(), CallFault> {
    match change {
        Change::Drive(high) => controller.drive(line, high),
        Change::Mask(on) => controller.set_mask(line, on),
        Change::Sense(sense) => controller.set_sense(line, sense),
        Change::Complete => controller.complete(line),
    }
}

impl Walk<'_> {
    // Makes the calls of the walk, and writes what each of them gives.
    pub fn make_calls<C: Controller + Drop>(&mut self, mut controller: C) -> Result<(), WalkError> {
        writeln!(self.written, "width {}", controller.width())?;
        for call in self.calls.lines() {
            write!(self.written, "{call}:")?;
            match call.split_once(' ') {
                Some((word, number)) => self.call_on_line(&mut controller, word, number)?,
                None => self.call_on_none(&mut controller, call)?,
            }
            writeln!(self.written)?;
        }
        Ok(())
    }

    // A call with the number of a line: its answer, the offer and the line's record after it.
    fn call_on_line<C: Controller>(
        &mut self,
        controller: &mut C,
        word: &str,
        number: &str,
    ) -> Result<(), WalkError> {
        let change = change_of(word).ok_or(WalkError::UnknownWord)?;
        let line = number.parse::<usize>()?;
        let outcome = make(controller, line, change).map_err(|fault| u8::from(fault));
        write!(self.written, " {}", Outcome(outcome))?;
        self.write_state(controller, line)
    }

    // A call on no line: a claim, a reset, or the records of all lines.
    fn call_on_none<C: Controller>(
        &mut self,
        controller: &mut C,
        word: &str,
    ) -> Result<(), WalkError> {
        match word {
            "claim" => self.claim(controller),
            "reset" => {
                controller.reset();
                write!(self.written, " done; {}", Offer(controller.offer()))?;
                Ok(())
            }
            "all" => {
                for line in 0..controller.width() {
                    write!(self.written, " {}", Record(controller.record(line)))?;
                }
                Ok(())
            }
            _ => Err(WalkError::UnknownWord),
        }
    }

    // A claim: the line that it names, the offer and that line's record after it.
    fn claim<C: Controller>(&mut self, controller: &mut C) -> Result<(), WalkError> {
        match controller.claim() {
            Some(line) => {
                write!(self.written, " {line}")?;
                self.write_state(controller, line)
            }
            None => {
                write!(self.written, " none; {}", Offer(controller.offer()))?;
                Ok(())
            }
        }
    }

    // The offer and the record of a line, after a call.
    fn write_state<C: Controller>(&mut self, controller: &C, line: usize) -> Result<(), WalkError> {
        write!(
            self.written,
            "; {}; {}",
            Offer(controller.offer()),
            Record(controller.record(line))
        )?;
        Ok(())
    }
}
