// The steps of the demonstration.
use crate::words::{Answer, Record};
use controller::call::CallFault;
use controller::interface::Controller;
use line::row::Row;
use std::io;

// The line of the timer: line 1 of the mux, behind the 8 lines of the 8259A and the 64 of the PLIC.
const TIMER: usize = 73;

// A cascade of the three controllers, and where its steps are printed.
#[derive(Drop)]
pub struct Demo<'a, C> {
    pub rt: &'a HostRuntime,
    pub controller: C,
}

impl<C: Controller> Demo<'_, C> {
    // All steps, under a title.
    pub fn run(&mut self, title: &str) -> io::Result<()> {
        println!(self.rt; "\n{title}")?;
        self.served_steps()?;
        self.refused_steps()
    }

    // The timer rises and is served; it is still high at the first completion, so it is offered again.
    fn served_steps(&mut self) -> io::Result<()> {
        let unmasked = self.controller.set_mask(TIMER, false);
        self.print_step("unmask line 73", unmasked)?;
        let raised = self.controller.drive(TIMER, true);
        self.print_step("drive line 73 high", raised)?;
        self.claim()?;
        let completed = self.controller.complete(TIMER);
        self.print_step("complete line 73", completed)?;
        self.claim()?;
        let lowered = self.controller.drive(TIMER, false);
        self.print_step("drive line 73 low", lowered)?;
        let completed = self.controller.complete(TIMER);
        self.print_step("complete line 73", completed)
    }

    // A claim that names no line, and calls that are refused.
    fn refused_steps(&mut self) -> io::Result<()> {
        self.claim()?;
        let completed = self.controller.complete(TIMER);
        self.print_step("complete line 73", completed)?;
        let unmasked = self.controller.set_mask(2, false);
        self.print_step("unmask line 2", unmasked)?;
        let unmasked = self.controller.set_mask(76, false);
        self.print_step("unmask line 76", unmasked)
    }

    // A claim.
    fn claim(&mut self) -> io::Result<()> {
        match self.controller.claim() {
            Some(line) => print!(self.rt; "claim: line {line}")?,
            None => print!(self.rt; "claim: no line")?,
        }
        self.print_state()
    }

    // A step on one line.
    fn print_step(&self, step: &str, answer: Result<(), CallFault>) -> io::Result<()> {
        print!(self.rt; "{step}: {}", Answer(answer))?;
        self.print_state()
    }

    // The record of the timer's line and the offer, after a step.
    fn print_state(&self) -> io::Result<()> {
        match self.controller.record(TIMER) {
            Ok(line) => print!(self.rt; "; {}", Record(Row::from(line)))?,
            Err(_) => print!(self.rt; "; the timer has no line")?,
        }
        match self.controller.offer() {
            Some(line) => println!(self.rt; "; offer line {line}"),
            None => println!(self.rt; "; offer none"),
        }
    }
}
