ghost use Rattle.std.specs.Prelude.{◌≡◌, length, Some};
ghost use Rattle.controller.specs.Calls.{outcome};
ghost use Rattle.controller.specs.Meaning.{all_reset};
ghost use Rattle.cascade.specs.Pairs.{Linked, Released, Settled};
ghost use Rattle.cascade.specs.Parts.{Made, MadeOf, pair_meaning, PairSound};
ghost use Rattle.cascade.specs.Sides.{side_of};
ghost use Rattle.cascade.specs.Questions.{question_of};
ghost use Rattle.cascade.specs.Pairing.{pair_lawful};

use crate::fault::CascadeFault;
use controller::call::{CallFault, Change};
use controller::interface::Controller;
use line::record::Line;
use line::row::Sense;

// A parent, a child, and the parent's line at which the child's offer is the level; the parent alone where none is
// wired.
#[derive(Drop)]
pub struct Cascade<P, C> {
    parent: P,
    child: C,
    wired: Option<usize>,
}

// Where a line of the pair stands.
#[derive(Clone, Copy, PartialEq, Eq, Debug)]
enum Side {
    // At the parent, under the same number.
    Parent,
    // It is the wired line.
    Wired,
    // At the child: the wired line, and the line's number at the child.
    Child(usize, usize),
}

// Drives line k of the parent to whether the child has an offer. It takes the parts, since the parent alone changes: as a method
// it would have to promise too that the child and the wired line stay. What it promises holds where the parts meet their
// conditions, as in the interface.
fn settle<P: Controller, C: Controller>(parent: &mut P, child: &C, k: usize)
    ensures keeps { P.Controller.sound parent.old → P.Controller.sound parent.new }
    ensures settled { P.Controller.sound parent.old → C.Controller.sound child.now → Linked (P.Controller.meaning parent.old) (C.Controller.meaning child.now) k → Settled (P.Controller.meaning parent.old) (P.Controller.meaning parent.new) (C.Controller.meaning child.now) k }
{
    let high = child.offer().is_some();
    let _ = parent.drive(k, high);
}

// Where a line of the child was completed, completes line k of the parent too. It takes the parent alone, as `settle` takes the
// parts.
fn release<P: Controller>(parent: &mut P, k: usize, change: Change)
    ensures keeps { P.Controller.sound parent.old → P.Controller.sound parent.new }
    ensures released { P.Controller.sound parent.old → Released change k (P.Controller.meaning parent.old) (P.Controller.meaning parent.new) }
{
    if let Change::Complete = change {
        let _ = parent.complete(k);
    }
}

// Whether a child can be cascaded at a line of a parent; why not: 25, 31, then 33.
pub fn question<P: Controller, C: Controller>(
    parent: &P,
    child: &C,
    line: usize,
) -> Result<(), CascadeFault>
    ensures { P.Controller.sound parent.now → C.Controller.sound child.now → result ≡ outcome (question_of (P.Controller.meaning parent.now).lines (C.Controller.meaning child.now).lines line) }
{
    match parent.record(line) {
        Err(CallFault::NoLine) => Err(CascadeFault::NoLine),
        Err(_) => Err(CascadeFault::Wired),
        Ok(_) if parent.width().saturating_add(child.width()) > 256 => Err(CascadeFault::TooWide),
        Ok(_) => Ok(()),
    }
}

impl<P: Controller, C: Controller> Cascade<P, C> {
    // The pair with the child at a line of the parent; the parent alone where the question has a refusal. Either way
    // it is reset.
    pub fn new(parent: P, child: C, line: usize) -> Cascade<P, C>
        ensures { MadeOf P.Controller C.Controller parent child (Some line) result }
    {
        Cascade::at(parent, child, Some(line))
    }

    // The pair with the child at a line of the parent, as `new` makes it; the parent alone where there is no line.
    pub fn at(parent: P, child: C, line: Option<usize>) -> Cascade<P, C>
        ensures { MadeOf P.Controller C.Controller parent child line result }
    {
        let mut cascade = Cascade {
            parent,
            child,
            wired: line,
        };
        cascade.reset();
        cascade
    }

    // The parent's lines come first, and the child's follow.
    fn side(&self, line: usize) -> Side
        ensures { P.Controller.sound self.now.parent → result ≡ side_of (length (P.Controller.meaning self.now.parent).lines) self.now.wired line }
    {
        let Some(k) = self.wired else {
            return Side::Parent;
        };
        if line == k {
            return Side::Wired;
        }
        let wide = self.parent.width();
        if line < wide {
            Side::Parent
        } else {
            Side::Child(k, line - wide)
        }
    }
}

impl<P: Controller, C: Controller> Controller for Cascade<P, C> {
    ghost sound = { PairSound P.Controller C.Controller };

    ghost meaning = { pair_meaning P.Controller C.Controller };

    ghost lawful = { λ x f. pair_lawful _ _ x.wired (P.Controller.lawful x.parent f.0) (C.Controller.lawful x.child f.1) f.2 };

    fn width(&self) -> usize {
        match self.wired {
            None => self.parent.width(),
            Some(_) => self.parent.width().saturating_add(self.child.width()),
        }
    }

    // Where the parent offers the wired line, the child's offer says which line it is.
    fn offer(&self) -> Option<usize> {
        let line = self.parent.offer()?;
        if self.wired != Some(line) {
            return Some(line);
        }
        let c = self.child.offer()?;
        Some(self.parent.width().saturating_add(c))
    }

    // The record of a line at the part where it stands.
    fn record(&self, line: usize) -> Result<Line, CallFault> {
        match self.side(line) {
            Side::Parent => self.parent.record(line),
            Side::Wired => Err(CallFault::Wired),
            Side::Child(_, c) => self.child.record(c),
        }
    }

    // A line of the parent is changed there. After an accepted change of a line of the child, the wired line is
    // completed if that was a completion, and driven as the child's offer says.
    fn change(&mut self, line: usize, change: Change) -> Result<(), CallFault> {
        match self.side(line) {
            Side::Parent => self.parent.change(line, change),
            Side::Wired => Err(CallFault::Wired),
            Side::Child(k, c) => {
                self.child.change(c, change)?;
                release(&mut self.parent, k, change);
                settle(&mut self.parent, &self.child, k);
                Ok(())
            }
        }
    }

    // Where the parent's claim names the wired line, the child's claim says which line it is.
    fn claim(&mut self) -> Option<usize> {
        let i = self.parent.claim()?;
        if self.wired != Some(i) {
            return Some(i);
        }
        let wide = self.parent.width();
        let c = self.child.claim()?;
        settle(&mut self.parent, &self.child, i);
        Some(wide.saturating_add(c))
    }

    // Resets both, and ties them again where the question allows it.
    fn reset(&mut self)
        ensures sound { PairSound P.Controller C.Controller self.new }
        ensures rests { (pair_meaning P.Controller C.Controller self.new).lines ≡ all_reset (pair_meaning P.Controller C.Controller self.new).lines }
        ensures resets { PairSound P.Controller C.Controller self.old → (pair_meaning P.Controller C.Controller self.new).lines ≡ all_reset (pair_meaning P.Controller C.Controller self.old).lines }
        ensures made { Made P.Controller C.Controller self.old.parent self.old.child self.old.wired self.new.parent self.new.child self.new.wired }
    {
        self.parent.reset();
        self.child.reset();
        let Some(k) = self.wired else {
            return;
        };
        if question(&self.parent, &self.child, k).is_err() {
            self.wired = None;
            return;
        }
        let _ = self.parent.set_sense(k, Sense::Following);
        let _ = self.parent.set_mask(k, false);
        settle(&mut self.parent, &self.child, k);
    }
}
