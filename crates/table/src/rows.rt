ghost use Rattle.std.specs.Prelude.{◌≡◌, ◌<◌, Bool, Option, min, length, map, replicate, Some, slice_set};
ghost use Rattle.search.specs.First.{first};
ghost use Rattle.line.specs.declared.record.Line.{Line};
ghost use Rattle.line.specs.declared.row.Row.{Row};
ghost use Rattle.line.specs.declared.row.Step.TheVariants.{Claim};
ghost use Rattle.line.specs.Rows.{fresh, made, waits};
ghost use Rattle.line.specs.Lines.{row_of};
ghost use Rattle.controller.specs.Calls.{record_seen};
ghost use Rattle.controller.specs.Meaning.{all_reset, at, record_at, step_at};
ghost use Rattle.table.specs.Kinds.{ready, serving};
ghost use Rattle.table.specs.Tables.{ChangedLines, made_line, table_lines};

use controller::call::{CallFault, Change};
use line::record::Line;
use line::row::{Row, Sense};

// The rows of a controller's lines, of which the first `wide` count, 64 at most. An array and a count, since there is no heap and
// a table is `Copy`. It derives no comparison, in which the rows past the width would count too.
#[derive(Clone, Copy)]
pub struct Table {
    rows: [Row; 64],
    wide: usize,
}

impl Table {
    // Lines of one sense, as a reset leaves them; 64 at most.
    #[tactic(auto, using(crate::proofs::Reading::like_lines))]
    pub fn new(wide: usize, sense: Sense) -> Table
        ensures { table_lines result ≡ replicate (min wide 64) (Some (fresh sense)) }
    {
        Table {
            rows: [Line::fresh(sense).into(); 64],
            wide,
        }
    }

    // How many lines there are.
    pub fn width(&self) -> usize
        ensures { result ≡ length (table_lines self.now) }
    {
        self.lines().len()
    }

    // The record of a line; 25.
    pub fn line(&self, i: usize) -> Result<Line, CallFault>
        ensures { record_seen result ≡ record_at (table_lines self.now) i }
    {
        let row = self.lines().get(i).ok_or(CallFault::NoLine)?;
        Ok(Line::from(*row))
    }

    // Whether a line waits; past the last line none does.
    pub fn waits(&self, i: usize) -> bool
        ensures { result ≡ ready (at (table_lines self.now) i) }
    {
        self.lines().get(i).is_some_and(row_waits)
    }

    // Whether a line is in service; past the last line none is.
    pub fn serves(&self, i: usize) -> bool
        ensures { result ≡ serving (at (table_lines self.now) i) }
    {
        self.lines().get(i).is_some_and(|row| row.service)
    }

    // The lowest-numbered line whose record passes a test.
    pub fn lowest<F: Fn(Line) -> bool>(&self, test: F) -> Option<usize>
        requires { F.IsAlwaysCallable test }
        ensures { (h : Option Row → Bool) → ((l : Line) (b : Bool) → F.post test l b → b ≡ h (Some (row_of l))) → result ≡ first h (table_lines self.now) }
    {
        self.lines().iter().position(|row| test(Line::from(*row)))
    }

    // Changes one line; 25, then 30 for a completion or 32 for a sense change. Refused, it changes nothing.
    pub fn change(&mut self, i: usize, change: Change) -> Result<(), CallFault>
        ensures { ChangedLines change i (table_lines self.old) (table_lines self.new) result }
    {
        let old = self.line(i)?;
        change.allowed(old)?;
        self.store(i, old.step(change.into()));
        Ok(())
    }

    // Steps a line by a claim that names it; with no such line it changes nothing.
    pub fn claim(&mut self, i: usize)
        ensures { table_lines self.new ≡ step_at Claim (table_lines self.old) i }
    {
        if let Ok(old) = self.line(i) {
            self.store(i, old.claim());
        }
    }

    // Resets every line, and reads no row past the last.
    #[tactic(auto, using(crate::proofs::Reading::lines_reset_front, controller::proofs::Resets::reset_again))]
    pub fn reset(&mut self)
        ensures resets { table_lines self.new ≡ all_reset (table_lines self.old) }
        ensures rests { table_lines self.new ≡ all_reset (table_lines self.new) }
    {
        let wide = self.width();
        for row in &mut self.rows[..wide] {
            *row = Row::from(Line::from(*row).reset());
        }
    }

    // The rows that count.
    fn lines(&self) -> &[Row]
        ensures { map made_line result.now ≡ table_lines self.now }
    {
        let wide = self.wide.min(self.rows.len());
        &self.rows[..wide]
    }

    // Writes the row of one line.
    #[tactic(auto, using(crate::proofs::Reading::stored_lines))]
    fn store(&mut self, i: usize, new: Line)
        requires { i < length (table_lines self.old) }
        ensures { table_lines self.new ≡ slice_set (table_lines self.old) i (Some (row_of new)) }
    {
        self.rows[i] = new.into();
    }
}

// Whether the line that a row makes waits. It is told of the row, since an offer asks it of every line and most are masked or rest.
fn row_waits(row: &Row) -> bool
    ensures { result ≡ waits (made row.now) }
{
    let requested = match row.sense {
        Sense::Following => row.level,
        Sense::Edge | Sense::Gated => row.request,
    };
    !row.mask && !row.service && requested
}
