// What the question answers of a tree and its parts, and the board that is made of them.
use crate::files::{blob, opened};
use crate::make::Make;
use crate::shapes::{
    all_four, bus, chain, chip, edge, fan, four, gated, line_after, mux, muxes, one, plic, room,
    sixteen, three, twelve, two, under, wide_fan,
};
use crate::text::{print_question, print_routes};
use boards::board::Board;
use boards::parts::Parts;
use std::io;

// One case.
fn ask<A: Make + Drop, B: Make + Drop, C: Make + Drop, D: Make + Drop>(
    rt: &HostRuntime,
    name: &str,
    parts: Parts<A, B, C, D>,
) -> io::Result<()> {
    let bytes = blob(rt, name)?;
    let tree = opened(bytes.as_slice())?;
    print_question(rt, name, &tree, &parts)?;
    print_routes(rt, &Board::assemble(&tree, parts))
}

pub fn ask_all(rt: &HostRuntime) -> io::Result<()> {
    ask_open(rt)?;
    ask_wired_devices(rt)?;
    ask_wired_children(rt)?;
    ask_widths(rt)?;
    ask_refused(rt)
}

// No specifier ends at a line that is wired. Past the tree's count any width will do.
fn ask_open(rt: &HostRuntime) -> io::Result<()> {
    ask(rt, "empty-strings", one(edge()))?;
    ask(rt, "empty-strings", one(plic(8)))?;
    ask(rt, "four-8259as", all_four())?;
    ask(rt, "rig-chain", chain())?;
    ask(rt, "rig-fan", fan())?;
    ask(rt, "mux-timer", room())?;
    ask(rt, "line-after", line_after())?;
    ask(rt, "riscv-guest", one(under()))?;
    ask(rt, "fieldbus", bus(sixteen(0)))?;
    ask(rt, "rig-fan", wide_fan(muxes(3, 5, 0)))?;
    ask(rt, "same-number", four(plic(4), plic(4), mux(4), edge()))?;
    let spare = four(gated(), plic(64), mux(1), sixteen(0));
    ask(rt, "empty-strings", spare)
}

// A device's specifier ends at a wired line: of the first, the second, the third, the fourth.
fn ask_wired_devices(rt: &HostRuntime) -> io::Result<()> {
    ask(rt, "one-8259a", one(edge()))?;
    ask(rt, "line-before", one(gated()))?;
    ask(rt, "nexus-pci", two(edge(), plic(8)))?;
    ask(rt, "riscv-guest", one(sixteen(0)))?;
    ask(rt, "timer-direct", two(chip(), edge()))?;
    ask(rt, "carrier", two(plic(32), edge()))?;
    ask(rt, "fieldbus", bus(sixteen(1)))?;
    ask(rt, "rig-fan", wide_fan(muxes(3, 5, 1)))
}

// A child is cascaded at a wired line: of the first, twice of the second.
fn ask_wired_children(rt: &HostRuntime) -> io::Result<()> {
    ask(rt, "mux-timer", three(edge(), plic(12), mux(6)))?;
    ask(rt, "mux-timer", three(chip(), twelve(6), mux(6)))?;
    let parts = four(mux(3), muxes(2, 2, 1), edge(), mux(3));
    ask(rt, "rig-chain", parts)
}

// A width: of the first, the second, the third, the fourth. At line 5 no pair can be made: its parent alone is too narrow, or as wide
// as it is to be.
fn ask_widths(rt: &HostRuntime) -> io::Result<()> {
    ask(rt, "empty-strings", one(mux(4)))?;
    ask(rt, "empty-strings", one(sixteen(0)))?;
    ask(rt, "no-devices", two(plic(4), edge()))?;
    ask(rt, "rig-fan", four(twelve(2), mux(7), mux(5), edge()))?;
    ask(rt, "rig-chain", four(mux(3), plic(4), plic(9), mux(3)))?;
    ask(rt, "rig-chain", four(mux(3), plic(4), edge(), edge()))?;
    ask(rt, "mux-timer", three(chip(), twelve(5), mux(6)))?;
    ask(rt, "empty-strings", one(twelve(5)))
}

// The tree has a refusal of its own, whatever the parts.
fn ask_refused(rt: &HostRuntime) -> io::Result<()> {
    ask(rt, "inputs-0", one(edge()))?;
    ask(rt, "kind-unknown", two(mux(4), edge()))?;
    ask(rt, "five-controllers", all_four())?;
    ask(rt, "sense-4", one(edge()))?;
    ask(rt, "routes-257", one(sixteen(0)))?;
    ask(rt, "two-roots", two(edge(), edge()))?;
    ask(rt, "shared-by-one", one(mux(1)))
}
