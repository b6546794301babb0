ghost use Rattle.std.specs.Prelude.{◌≡◌, ◌<◌, ◌≢◌, ℕ, ⊤, length, replicate, None, Some, slice_set};
ghost use Rattle.search.specs.Exactly.{Exactly};
ghost use Rattle.line.specs.Rows.{fresh};
ghost use Rattle.line.specs.Lines.{row_of};
ghost use Rattle.controller.specs.Calls.{record_seen};
ghost use Rattle.controller.specs.Meaning.{Changed, Claimed, Waits, all_reset, at, record_at};
ghost use Rattle.highest_first.specs.Highest.{HighestWaiting, chip_lines, chip_meaning, highest, ready};
ghost use Rattle.highest_first.specs.Held.{chip_lawful};

use controller::call::{CallFault, Change};
use controller::interface::Controller;
use line::record::Line;
use line::row::{Row, Sense};

// How many lines there are.
const WIDTH: usize = 8;

// The line that is wired inside.
const WIRED: usize = 5;

// A controller of eight lines. The row of the wired line is there and does not count, and so it derives no comparison.
#[derive(Drop)]
pub struct HighestFirst {
    rows: [Row; WIDTH],
}

impl HighestFirst {
    // Lines of one sense, as a reset leaves them.
    pub fn new(sense: Sense) -> HighestFirst
        ensures { chip_lines result ≡ slice_set (replicate 8 (Some (fresh sense))) 5 None }
    {
        HighestFirst {
            rows: [Line::fresh(sense).into(); WIDTH],
        }
    }

    // Whether a line waits; the wired one does not, and past the last line none does.
    fn waits(&self, i: usize) -> bool
        ensures { result ≡ ready (at (chip_lines self.now) i) }
    {
        self.record(i).is_ok_and(|line| line.waits())
    }

    // The highest-numbered line that waits.
    #[tactic(auto, using(crate::proofs::Wiring::highest_step, crate::proofs::Wiring::lines_length))]
    fn highest(&self) -> Option<usize>
        ensures { result ≡ highest (chip_lines self.now) }
    {
        for i in (0..WIDTH).rev() {
            if self.waits(i) {
                return Some(i);
            }
        }
        None
    }

    // Writes the row of a line that is not wired.
    #[tactic(auto, using(crate::proofs::Wiring::stored_lines))]
    fn store(&mut self, i: usize, new: Line)
        requires inside { i < length (chip_lines self.old) }
        requires open { i ≢ 5 }
        ensures { chip_lines self.new ≡ slice_set (chip_lines self.old) i (Some (row_of new)) }
    {
        self.rows[i] = new.into();
    }
}

impl Controller for HighestFirst {
    ghost sound = { λ _. ⊤ };

    ghost meaning = { chip_meaning };

    ghost lawful = { λ x _. chip_lawful x };

    fn width(&self) -> usize
        ensures is { result ≡ 8 }
        ensures lines { result ≡ length (chip_lines self.now) }
    {
        self.rows.len()
    }

    // A line is offered exactly if it is open and waits and no higher line does.
    #[tactic(auto, using(crate::specs::Held::offered_exactly, crate::specs::Held::offered_none))]
    fn offer(&self) -> Option<usize>
        ensures is { result ≡ highest (chip_lines self.now) }
        ensures exactly { (i : ℕ) → Exactly (result ≡ Some i) (HighestWaiting (chip_lines self.now) i) }
        ensures none { Exactly (result ≡ None) ((i : ℕ) → Waits (chip_lines self.now) i → ⊥) }
    {
        self.highest()
    }

    fn record(&self, line: usize) -> Result<Line, CallFault> {
        let row = self.rows.get(line).ok_or(CallFault::NoLine)?;
        if line == WIRED {
            return Err(CallFault::Wired);
        }
        Ok(Line::from(*row))
    }

    fn change(&mut self, line: usize, change: Change) -> Result<(), CallFault> {
        let old = self.record(line)?;
        change.allowed(old)?;
        self.store(line, old.step(change.into()));
        Ok(())
    }

    fn claim(&mut self) -> Option<usize> {
        let i = self.offer()?;
        if let Ok(old) = self.record(i) {
            self.store(i, old.claim());
        }
        Some(i)
    }

    // The row of the wired line too, which does not count.
    #[tactic(auto, using(line::proofs::Records::reset_whole, crate::proofs::Wiring::lines_reset, controller::proofs::Resets::reset_again))]
    fn reset(&mut self)
        ensures rests { (chip_meaning self.new).lines ≡ all_reset (chip_meaning self.new).lines }
        ensures resets { (chip_meaning self.new).lines ≡ all_reset (chip_meaning self.old).lines }
    {
        for row in &mut self.rows[..] {
            *row = Row::from(Line::from(*row).reset());
        }
    }
}
