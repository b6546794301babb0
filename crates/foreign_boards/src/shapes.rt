// The parts of the cases.
use boards::parts::Parts;
use cascade::pair::Cascade;
use controller::interface::Controller;
use highest_first::chip::HighestFirst;
use i8259::chip::{FullyNested, I8259};
use line::row::Sense;
use plic::chip::{ByPriority, Plic};
use plic::plic_width::PlicWidth;
use plic::priority::Priority;
use status_mux::mux::{LowestFirst, StatusMux};
use status_mux::mux_width::MuxWidth;
use std::array;

// A highest-first controller and a mux as one part.
pub type OverMux = Cascade<HighestFirst, StatusMux>;

// Two highest-first controllers as one part.
pub type Twice = Cascade<HighestFirst, HighestFirst>;

// Two muxes as one part.
pub type Muxes = Cascade<StatusMux, StatusMux>;

// Four parts of which the tree places one, two or three.
pub type One<A> = Parts<A, I8259, I8259, I8259>;

pub type Two<A, B> = Parts<A, B, I8259, I8259>;

pub type Three<A, B, C> = Parts<A, B, C, I8259>;

pub fn one<A: Controller>(first: A) -> One<A> {
    two(first, chip())
}

pub fn two<A: Controller, B: Controller>(first: A, second: B) -> Two<A, B> {
    three(first, second, chip())
}

pub fn three<A: Controller, B: Controller, C: Controller>(
    first: A,
    second: B,
    third: C,
) -> Three<A, B, C> {
    four(first, second, third, chip())
}

pub fn four<A: Controller, B: Controller, C: Controller, D: Controller>(
    first: A,
    second: B,
    third: C,
    fourth: D,
) -> Parts<A, B, C, D> {
    Parts {
        first,
        second,
        third,
        fourth,
    }
}

pub fn chip() -> I8259 {
    FullyNested::controller()
}

// A mux with this many lines, which are 1 to 32.
pub fn mux(lines: usize) -> StatusMux {
    let one = MuxWidth::new(1).unwrap();
    LowestFirst::controller(MuxWidth::new(lines).unwrap_or(one))
}

// A PLIC with this many lines, 1 to 64, all of one priority.
pub fn plic(lines: usize) -> Plic {
    let one = PlicWidth::new(1).unwrap();
    ByPriority::controller(PlicWidth::new(lines).unwrap_or(one), &[])
}

// A PLIC with eight lines of these priorities, each 1 to 7.
pub fn eight(levels: [usize; 8]) -> Plic {
    let one = Priority::new(1).unwrap();
    let width = PlicWidth::new(8).unwrap();
    let levels: [Priority; 8] = array::from_fn(|i| Priority::new(levels[i]).unwrap_or(one));
    ByPriority::controller(width, &levels)
}

pub fn edge() -> HighestFirst {
    HighestFirst::new(Sense::Edge)
}

pub fn following() -> HighestFirst {
    HighestFirst::new(Sense::Following)
}

pub fn gated() -> HighestFirst {
    HighestFirst::new(Sense::Gated)
}

// One on which calls were made: line 7 is in service and line 6 waits.
pub fn used() -> HighestFirst {
    let mut chip = edge();
    for line in [7, 6] {
        let _ = chip.set_mask(line, false);
        let _ = chip.drive(line, true);
    }
    let _ = chip.claim();
    chip
}

// Twelve lines, of which 5 and this one are wired.
pub fn twelve(line: usize) -> OverMux {
    Cascade::new(edge(), mux(4), line)
}

// Sixteen lines, of which 5, 13 and this one are wired.
pub fn sixteen(line: usize) -> Twice {
    Cascade::new(edge(), gated(), line)
}

// Sixteen lines, of which 7 and 13 are wired.
pub fn under() -> Cascade<StatusMux, HighestFirst> {
    Cascade::new(mux(8), edge(), 7)
}

// Ten lines, of which 5 and 3 are wired.
pub fn ten() -> OverMux {
    Cascade::new(following(), mux(2), 3)
}

// As many lines as both have, of which this one is wired.
pub fn muxes(parent: usize, child: usize, line: usize) -> Muxes {
    Cascade::new(mux(parent), mux(child), line)
}

// The parts for the trees that several cases take.
pub fn fan() -> Parts<OverMux, HighestFirst, StatusMux, HighestFirst> {
    four(twelve(2), edge(), mux(5), gated())
}

pub fn chain() -> Parts<StatusMux, Plic, HighestFirst, StatusMux> {
    four(mux(3), plic(4), following(), mux(3))
}

pub fn all_four() -> Parts<HighestFirst, HighestFirst, HighestFirst, HighestFirst> {
    four(edge(), following(), gated(), used())
}

pub fn room() -> Three<I8259, OverMux, StatusMux> {
    three(chip(), twelve(2), mux(6))
}

pub fn line_after() -> Three<Plic, HighestFirst, StatusMux> {
    three(eight([2, 1, 3, 1, 7, 1, 1, 3]), gated(), mux(6))
}

// The third one has sixteen lines.
pub fn bus(third: Twice) -> Parts<Plic, StatusMux, Twice, StatusMux> {
    four(plic(10), mux(4), third, mux(1))
}

// The fourth one has eight lines.
pub fn wide_fan(fourth: Muxes) -> Parts<Plic, HighestFirst, StatusMux, Muxes> {
    four(plic(12), edge(), mux(5), fourth)
}
