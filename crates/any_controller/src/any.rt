ghost use Rattle.std.specs.Prelude.{◌≡◌, ⊤};
ghost use Rattle.controller.specs.Meaning.{Changed, Claimed, all_reset};
ghost use Rattle.any_controller.specs.Any.{any_meaning, kind_of};
ghost use Rattle.i8259.specs.Held.{i8259_lawful};
ghost use Rattle.plic.specs.Offers.{level_of};
ghost use Rattle.plic.specs.Best.{plic_lawful};
ghost use Rattle.status_mux.specs.Lowest.{mux_lawful};
ghost use Rattle.any_controller.specs.declared.any.AnyController.TheVariants.{I8259, Plic, StatusMux};

use controller::call::{CallFault, Change};
use controller::interface::Controller;
use i8259::chip::I8259;
use line::record::Line;
use plic::chip::Plic;
use status_mux::mux::StatusMux;

// A controller of any of the three kinds, an enum with a match in each call. There is no heap for a boxed controller, no function
// may hand out a `&dyn Controller`, and a macro would only write the same match. One `OverTable` with an order that is any of the
// three would need the order taken out of its controller, and only a kind's own crate makes orders, so that no controller has a
// width out of its kind's range.
#[derive(Drop)]
pub enum AnyController {
    I8259(I8259),
    Plic(Plic),
    StatusMux(StatusMux),
}

impl Controller for AnyController {
    ghost sound = { λ _. ⊤ };

    ghost meaning = { any_meaning };

    ghost lawful = { elim [
      | I8259 x ↦ λ f. i8259_lawful x.table
      | Plic x ↦ λ f. plic_lawful (level_of x.order) x.table
      | StatusMux x ↦ λ f. mux_lawful x.table
    ] };

    fn width(&self) -> usize {
        match self {
            AnyController::I8259(x) => x.width(),
            AnyController::Plic(x) => x.width(),
            AnyController::StatusMux(x) => x.width(),
        }
    }

    fn offer(&self) -> Option<usize> {
        match self {
            AnyController::I8259(x) => x.offer(),
            AnyController::Plic(x) => x.offer(),
            AnyController::StatusMux(x) => x.offer(),
        }
    }

    fn record(&self, line: usize) -> Result<Line, CallFault> {
        match self {
            AnyController::I8259(x) => x.record(line),
            AnyController::Plic(x) => x.record(line),
            AnyController::StatusMux(x) => x.record(line),
        }
    }

    // The kind and the priorities of a PLIC stay, here and in a claim and a reset: each call says so, as no type says that a
    // part of a value stays.
    fn change(&mut self, line: usize, change: Change) -> Result<(), CallFault>
        ensures steps { Changed change line (any_meaning self.old) (any_meaning self.new) result }
        ensures kind { kind_of self.new ≡ kind_of self.old }
    {
        match self {
            AnyController::I8259(x) => x.change(line, change),
            AnyController::Plic(x) => x.change(line, change),
            AnyController::StatusMux(x) => x.change(line, change),
        }
    }

    fn claim(&mut self) -> Option<usize>
        ensures names { Claimed (any_meaning self.old) (any_meaning self.new) result }
        ensures kind { kind_of self.new ≡ kind_of self.old }
    {
        match self {
            AnyController::I8259(x) => x.claim(),
            AnyController::Plic(x) => x.claim(),
            AnyController::StatusMux(x) => x.claim(),
        }
    }

    fn reset(&mut self)
        ensures rests { (any_meaning self.new).lines ≡ all_reset (any_meaning self.new).lines }
        ensures resets { (any_meaning self.new).lines ≡ all_reset (any_meaning self.old).lines }
        ensures kind { kind_of self.new ≡ kind_of self.old }
    {
        match self {
            AnyController::I8259(x) => x.reset(),
            AnyController::Plic(x) => x.reset(),
            AnyController::StatusMux(x) => x.reset(),
        }
    }
}
