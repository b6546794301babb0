ghost use Rattle.std.specs.Prelude.{◌≡◌, ℕ, true, List, if◌then◌else◌};
ghost use Rattle.search.specs.Exactly.{Exactly};
ghost use Rattle.line.specs.declared.row.Sense.TheVariants.{Edge};
ghost use Rattle.line.specs.Lines.{row_of};
ghost use Rattle.line.specs.Rows.{rests};
ghost use Rattle.line.specs.Steps.{after};
ghost use Rattle.history.specs.Own.{accepted, at_most_one, claims as claims_in, is_change, is_claim, names as names_device, own, stands as stands_after, step_of};
ghost use Rattle.history.specs.Kept.{KeptUp, keeps_up};
ghost use Rattle.history.specs.Law.{Counted};

use crate::call::{Answer, Call, Event};
use line::record::Line;
use line::row::{Sense, Step};

// Each question takes the device and the events: a struct of the two would be made for one question and let go after it.
// How a device of this sense stands after the events. Equal own steps give equal records, whatever the lists.
pub fn stands(sense: Sense, device: usize, events: &[Event]) -> Line
    ensures is { row_of result ≡ stands_after sense device events.now }
    ensures alike { (j : ℕ) (k : List Event) → own device events.now ≡ own j k → row_of result ≡ stands_after sense j k }
{
    events
        .iter()
        .fold(Line::fresh(sense), |line, event| event.next(line, device))
}

// Whether a device of this sense was kept up with: just before each of its changes, and at the end, it is masked, or
// neither requested nor in service.
pub fn kept_up(sense: Sense, device: usize, events: &[Event]) -> bool
    ensures is { result ≡ keeps_up sense device events.now }
    ensures exactly { Exactly (result ≡ true) (KeptUp sense device events.now) }
{
    let mut line = Line::fresh(sense);
    // A loop and no `try_fold`: the end at the first change that is not in time is plainer as a return than as a None.
    for event in events {
        if !event.is_in_time(line, device) {
            return false;
        }
        line = event.next(line, device);
    }
    line.rests()
}

// How many claims named a device. For an edge device that was kept up with and waited at each claim, its changes say it.
#[tactic(auto, using(crate::proofs::Counting::claims_count, crate::proofs::Counting::counts_by_changes))]
pub fn claims(device: usize, events: &[Event]) -> usize
    ensures is { result ≡ claims_in device events.now }
    ensures kept { Counted Edge device events.now result }
{
    events.iter().filter(|event| event.is_claim(device)).count()
}

impl Event {
    // The record of a device after the event: stepped where the event is a step of the device.
    fn next(self, line: Line, device: usize) -> Line
        ensures { row_of result ≡ after (row_of line) (at_most_one (step_of device self)) }
    {
        match self.own_step(device) {
            Some(step) => line.step(step),
            None => line,
        }
    }

    // The step that the event is for a device: an accepted call of the device, or a claim that named it.
    pub fn own_step(self, device: usize) -> Option<Step>
        ensures { result ≡ step_of device self }
    {
        let accepted = self.answer.is_accepted();
        match self.call {
            Call::Drive(of, high) if accepted && device == of => Some(Step::Drive(high)),
            Call::Mask(of, on) if accepted && device == of => Some(Step::Mask(on)),
            Call::Claim if self.answer.names(device) => Some(Step::Claim),
            Call::Complete(of) if accepted && device == of => Some(Step::Complete),
            _ => None,
        }
    }

    // The event is no change of the device, or finds it masked, or neither requested nor in service.
    fn is_in_time(self, line: Line, device: usize) -> bool
        ensures { result ≡ (if is_change device self.call self.answer then rests (row_of line) else true) }
    {
        !self.is_change(device) || line.rests()
    }

    // An accepted drive or mask change of the device.
    fn is_change(self, device: usize) -> bool
        ensures { result ≡ is_change device self.call self.answer }
    {
        match self.call {
            Call::Drive(of, _) | Call::Mask(of, _) => self.answer.is_accepted() && device == of,
            Call::Claim | Call::Complete(_) => false,
        }
    }

    // A claim that named the device.
    fn is_claim(self, device: usize) -> bool
        ensures { result ≡ is_claim device self.call self.answer }
    {
        matches!(self.call, Call::Claim) && self.answer.names(device)
    }
}

impl Answer {
    // The answer is not a refusal.
    fn is_accepted(self) -> bool
        ensures { result ≡ accepted self }
    {
        !matches!(self, Answer::Refused(_))
    }

    // The answer names the device.
    fn names(self, device: usize) -> bool
        ensures { result ≡ names_device device self }
    {
        matches!(self, Answer::Named(Some(named)) if named == device)
    }
}
