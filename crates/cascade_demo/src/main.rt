//! A timer on a status mux, which is cascaded into a PLIC, which is cascaded into an 8259A: the timer's line is unmasked,
//! raised, claimed and completed, and each step is printed in words. Which two are cascaded first makes no difference.
#![tactic(auto)]

use cascade::pair::Cascade;
use i8259::chip::FullyNested;
use plic::chip::{ByPriority, Plic};
use plic::plic_width::PlicWidth;
use status_mux::mux::{LowestFirst, StatusMux};
use status_mux::mux_width::MuxWidth;
use std::io;

mod steps;
mod words;

use steps::Demo;

// The PLIC with 64 lines, each of priority 1 since no list gives another, and the status mux with 4 lines; an error only if
// a width were out of range.
fn parts() -> io::Result<(Plic, StatusMux)> {
    let plic_width = PlicWidth::new(64).ok_or(io::ErrorKind::InvalidInput)?;
    let mux_width = MuxWidth::new(4).ok_or(io::ErrorKind::InvalidInput)?;
    Ok((
        ByPriority::controller(plic_width, &[]),
        LowestFirst::controller(mux_width),
    ))
}

fn mux_first(rt: &HostRuntime) -> io::Result<()> {
    let (plic, mux) = parts()?;
    let pair = Cascade::new(plic, mux, 10);
    let controller = Cascade::new(FullyNested::controller(), pair, 2);
    let mut demo = Demo { rt, controller };
    demo.run("The mux is cascaded into the PLIC, and that pair into the 8259A:")
}

fn plic_first(rt: &HostRuntime) -> io::Result<()> {
    let (plic, mux) = parts()?;
    let pair = Cascade::new(FullyNested::controller(), plic, 2);
    let controller = Cascade::new(pair, mux, 8 + 10);
    let mut demo = Demo { rt, controller };
    demo.run("The PLIC is cascaded into the 8259A, and the mux into that pair:")
}

fn main(rt: HostRuntime) -> io::Result<()> {
    println!(rt;
        "A timer drives line 1 of a status mux with 4 lines. The mux is wired to line 10 of a PLIC with 64 lines,"
    )?;
    println!(rt;
        "and the PLIC to line 2 of an 8259A, which has 8. Together they are one controller with 76 lines, and the"
    )?;
    println!(rt;
        "timer is at line 8 + 64 + 1 = 73. Each step says its answer, then the record of line 73, then the offer."
    )?;
    mux_first(&rt)?;
    plic_first(&rt)
}
