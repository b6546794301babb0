ghost use Rattle.std.specs.Prelude.{◌≡◌, ℕ, List};
ghost use Rattle.line.specs.declared.row.Sense.TheVariants.{Edge};
ghost use Rattle.history.specs.declared.call.Answer.TheVariants.{Done};
ghost use Rattle.history.specs.Example.{PremisesMet, two_ticks};
ghost use Rattle.history.specs.Own.{claims};
ghost use Rattle.history.specs.Law.{CleanLaw, Counted, ExtendLaw, TwoBoardsLaw, answered};

use crate::call::{Answer, Call, Event};
use line::row::Sense;

// A history that meets the premises of the law on claims: an edge device, unmasked, ticks twice and is claimed twice.
#[tactic(auto, using(crate::proofs::Ticks::met))]
pub fn premises_met() -> [Event; 9]
    ensures is { result ≡ two_ticks }
    ensures premises { PremisesMet result }
{
    let high = Event::done(Call::Drive(0, true));
    let claim = Event {
        call: Call::Claim,
        answer: Answer::Named(Some(0)),
    };
    let complete = Event::done(Call::Complete(0));
    let low = Event::done(Call::Drive(0, false));
    let unmask = Event::done(Call::Mask(0, false));
    [
        unmask, high, claim, complete, low, high, claim, complete, low,
    ]
}

impl Event {
    // The call with the answer that it was done.
    fn done(call: Call) -> Event
        ensures { result ≡ answered call Done }
    {
        Event {
            call,
            answer: Answer::Done,
        }
    }
}

// The sense of the devices whose claims the law of two boards counts. The law holds of every two boards, each after its
// own history; a clean board is after the empty history, and each turn adds its event.
#[tactic(auto, using(crate::proofs::Counting::claims_by_changes, crate::proofs::Boards::clean, crate::proofs::Boards::extend, crate::proofs::Boards::two_boards))]
pub fn counted_sense() -> Sense
    ensures is { result ≡ Edge }
    ensures counts { (i : ℕ) (h : List Event) → Counted result i h (claims i h) }
    ensures clean { CleanLaw }
    ensures extend { ExtendLaw }
    ensures boards { TwoBoardsLaw }
{
    Sense::Edge
}
