ghost use Rattle.std.specs.Prelude.{◌≡◌, true, IfOk};
ghost use Rattle.line.specs.declared.row.Sense.TheVariants.{Edge};
ghost use Rattle.std.specs.List.{filter_map};
ghost use Rattle.search.specs.Exactly.{Exactly};
ghost use Rattle.history.specs.Kept.{KeptUp};
ghost use Rattle.history.specs.Own.{changes, own, step_of};
ghost use Rattle.board_text.specs.Law.{Applies, is_change_step};

use history::call::Event;
use history::device::kept_up;
use line::row::{Sense, Step};
use std::alloc::{AllocError, Global};

// A device of a board, with the events of the board's run.
#[derive(Clone, Copy, PartialEq, Eq, Debug)]
pub struct Past<'a> {
    pub sense: Sense,
    pub device: usize,
    pub events: &'a [Event],
}

// Whether the law of two boards says that a device is the same on both: it has one sense and equal own steps, or is an edge device with
// equal changes, kept up with on both.
pub fn applies(heap: Global, old: Past<'_>, new: Past<'_>) -> Result<bool, AllocError>
    ensures { IfOk result (λ so. Exactly (so ≡ true) (Applies old.entry.sense old.entry.device old.entry.events.now new.entry.sense new.entry.device new.entry.events.now)) }
{
    let steps = have_equal_steps(heap, old, new)?;
    let changes = have_equal_changes(heap, old, new)?;
    Ok(old.sense == new.sense && steps || is_kept_up_edge(old) && is_kept_up_edge(new) && changes)
}

// Whether two devices have equal own steps.
#[tactic(auto, using(crate::proofs::OwnSteps::own_mapped))]
fn have_equal_steps(heap: Global, old: Past<'_>, new: Past<'_>) -> Result<bool, AllocError>
    ensures { IfOk result (λ so. Exactly (so ≡ true) (own old.entry.device old.entry.events.now ≡ own new.entry.device new.entry.events.now)) }
{
    let old_steps = own_steps(heap, old.device, old.events)?;
    let new_steps = own_steps(heap, new.device, new.events)?;
    Ok(are_equal(old_steps.as_slice(), new_steps.as_slice()))
}

// Whether two devices have equal changes.
fn have_equal_changes(heap: Global, old: Past<'_>, new: Past<'_>) -> Result<bool, AllocError>
    ensures { IfOk result (λ so. Exactly (so ≡ true) (changes old.entry.device old.entry.events.now ≡ changes new.entry.device new.entry.events.now)) }
{
    let old_changes = changes(heap, old.device, old.events)?;
    let new_changes = changes(heap, new.device, new.events)?;
    Ok(are_equal(old_changes.as_slice(), new_changes.as_slice()))
}

// Whether two lists of steps are equal.
#[tactic(auto, using(crate::proofs::Equals::steps_equal))]
fn are_equal(old: &[Step], new: &[Step]) -> bool
    ensures { Exactly (result ≡ true) (old.now ≡ new.now) }
{
    old == new
}

// Whether it is an edge device that was kept up with.
fn is_kept_up_edge(past: Past<'_>) -> bool
    ensures { Exactly (result ≡ true) ((past.entry.sense ≡ Edge) × KeptUp Edge past.entry.device past.entry.events.now) }
{
    past.sense == Sense::Edge && kept_up(Sense::Edge, past.device, past.events)
}

// The own steps of a device, in order: its accepted drives, mask changes and completions, and the claims that name it.
pub fn own_steps(heap: Global, device: usize, events: &[Event]) -> Result<Vec<Step>, AllocError>
    ensures { IfOk result (λ steps. steps.items ≡ filter_map (step_of device) events.now) }
{
    events
        .iter()
        .filter_map(|event| event.own_step(device))
        .collect(heap)
}

// The own steps that are changes.
#[tactic(auto, using(crate::proofs::OwnSteps::own_mapped, crate::proofs::OwnSteps::changes_filtered))]
pub fn changes(heap: Global, device: usize, events: &[Event]) -> Result<Vec<Step>, AllocError>
    ensures { IfOk result (λ steps. steps.items ≡ changes device events.now) }
{
    own_steps(heap, device, events)?
        .as_slice()
        .iter()
        .copied()
        .filter(|step| is_change(*step))
        .collect(heap)
}

// A drive or a mask change.
fn is_change(step: Step) -> bool
    ensures { result ≡ is_change_step step }
{
    matches!(step, Step::Drive(_) | Step::Mask(_))
}
