ghost use Rattle.std.specs.Prelude.{◌≡◌, length};
ghost use Rattle.controller.specs.Calls.{record_seen};
ghost use Rattle.controller.specs.Meaning.{Changed, Claimed, Lawful, Meaning, all_reset, record_at};
ghost use Rattle.controller.specs.declared.call.Change.TheVariants.{Complete, Drive, Mask, Sense as Sensed};

use crate::call::{CallFault, Change};
use line::record::Line;
use line::row::Sense;

// A controller of any make. Where a promise needs the condition `sound`, it is an implication: every call keeps the
// condition, and a reset makes it hold from any value. It is no invariant of a type, since a cascade's ties its two parts, of which
// nothing is known but this interface.
pub trait Controller {
    ghost sound: { Self → Type 0 };

    ghost meaning: { Self → Meaning };

    // How many lines there are.
    fn width(&self) -> usize
        ensures { sound self.now → result ≡ length (meaning self.now).lines };

    // The line that is offered.
    fn offer(&self) -> Option<usize>
        ensures { sound self.now → result ≡ (meaning self.now).offer };

    // The record of a line; 25, 31.
    fn record(&self, line: usize) -> Result<Line, CallFault>
        ensures { sound self.now → record_seen result ≡ record_at (meaning self.now).lines line };

    // Changes one line; 25, 31, then 30 for a completion or 32 for a sense change. Refused, it changes nothing.
    fn change(&mut self, line: usize, change: Change) -> Result<(), CallFault>
        ensures keeps { sound self.old → sound self.new }
        ensures steps { sound self.old → Changed change line (meaning self.old) (meaning self.new) result };

    // Names the offered line and puts it in service; without an offer it names none and changes nothing.
    fn claim(&mut self) -> Option<usize>
        ensures keeps { sound self.old → sound self.new }
        ensures names { sound self.old → Claimed (meaning self.old) (meaning self.new) result };

    // Resets every open line.
    fn reset(&mut self)
        ensures sound { sound self.new }
        ensures rests { (meaning self.new).lines ≡ all_reset (meaning self.new).lines }
        ensures resets { sound self.old → (meaning self.new).lines ≡ all_reset (meaning self.old).lines };

    // Drives a line high or low; 25, 31.
    fn drive(&mut self, line: usize, high: bool) -> Result<(), CallFault>
        ensures keeps { sound self.old → sound self.new }
        ensures steps { sound self.old → Changed (Drive high) line (meaning self.old) (meaning self.new) result }
    {
        self.change(line, Change::Drive(high))
    }

    // Masks or unmasks a line; 25, 31.
    fn set_mask(&mut self, line: usize, on: bool) -> Result<(), CallFault>
        ensures keeps { sound self.old → sound self.new }
        ensures steps { sound self.old → Changed (Mask on) line (meaning self.old) (meaning self.new) result }
    {
        self.change(line, Change::Mask(on))
    }

    // Changes the sense of a line that is not in service; 25, 31, 32.
    fn set_sense(&mut self, line: usize, sense: Sense) -> Result<(), CallFault>
        ensures keeps { sound self.old → sound self.new }
        ensures steps { sound self.old → Changed (Sensed sense) line (meaning self.old) (meaning self.new) result }
    {
        self.change(line, Change::Sense(sense))
    }

    // Completes a line that is in service; 25, 31, 30.
    fn complete(&mut self, line: usize) -> Result<(), CallFault>
        ensures keeps { sound self.old → sound self.new }
        ensures steps { sound self.old → Changed Complete line (meaning self.old) (meaning self.new) result }
    {
        self.change(line, Change::Complete)
    }

    ghost lawful: { (x : Self) → sound x → Lawful (meaning x) };
}
