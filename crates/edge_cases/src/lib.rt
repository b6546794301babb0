//! The cases at the edges, as one list in specs/Cases.antt, and one proof that the definitions which the other crates' contracts cite
//! give every one of them.
#![tactic(auto)]

ghost use Rattle.std.specs.Prelude.{◌≡◌, length};
ghost use Rattle.edge_cases.specs.Cases.{AllHold, cases};

// How many cases there are. All of them hold.
pub fn edge_cases() -> usize
    ensures count { result ≡ length cases }
    ensures hold { AllHold cases }
{
    counted()
}

// The count, in a function of its own, so that a wrong one is refused here and not in the proof of the cases.
fn counted() -> usize
    ensures { result ≡ length cases }
{
    13
}
