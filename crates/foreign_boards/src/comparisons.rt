// Comparisons of two boards, each after a list of its own.
use crate::files::{asked_for, blob, events, opened};
use crate::make::Make;
use crate::shapes::{
    all_four, chain, edge, fan, following, line_after, mux, one, room, three, under,
};
use crate::standing::{print_pairs, print_standings, standings};
use crate::text::{print_question, print_routes};
use board_text::text::{AnswerText, CallText};
use boards::law::compare;
use boards::parts::Parts;
use cascade::pair::Cascade;
use history::call::Event;
use std::io;

// One side: the name of a tree, and the parts.
#[derive(Drop)]
struct Side<'a, A, B, C, D> {
    name: &'a str,
    parts: Parts<A, B, C, D>,
}

impl<'a, A: Make, B: Make, C: Make, D: Make> Side<'a, A, B, C, D> {
    fn new(name: &'a str, parts: Parts<A, B, C, D>) -> Side<'a, A, B, C, D> {
        Side { name, parts }
    }
}

// One case: of both sides question and routes, then every answer, then how each device stands; and the devices of both, two by two.
fn compare_boards<
    A: Make + Drop,
    B: Make + Drop,
    C: Make + Drop,
    D: Make + Drop,
    E: Make + Drop,
    F: Make + Drop,
    G: Make + Drop,
    H: Make + Drop,
>(rt: &HostRuntime, old: Side<'_, A, B, C, D>, new: Side<'_, E, F, G, H>) -> io::Result<()> {
    let old_bytes = blob(rt, old.name)?;
    let new_bytes = blob(rt, new.name)?;
    let old_tree = opened(old_bytes.as_slice())?;
    let new_tree = opened(new_bytes.as_slice())?;
    let title = format!(in rt.alloc(); "{}-{}", old.name, new.name)?;
    let mut old_events = list(rt, title.as_str(), "old")?;
    let mut new_events = list(rt, title.as_str(), "new")?;
    print_question(rt, old.name, &old_tree, &old.parts)?;
    print_question(rt, new.name, &new_tree, &new.parts)?;
    let (old_board, new_board) = compare(
        &old_tree,
        old.parts,
        old_events.as_mut_slice(),
        &new_tree,
        new.parts,
        new_events.as_mut_slice(),
    );
    print_routes(rt, &old_board)?;
    print_routes(rt, &new_board)?;
    print_answers(rt, "old", old_events.as_slice())?;
    print_answers(rt, "new", new_events.as_slice())?;
    let old_devices = standings(rt.alloc(), &old_board, old_events.as_slice())?;
    let new_devices = standings(rt.alloc(), &new_board, new_events.as_slice())?;
    print_standings(rt, "old", old_devices.as_slice())?;
    print_standings(rt, "new", new_devices.as_slice())?;
    print_pairs(rt, old_devices.as_slice(), new_devices.as_slice())
}

// The list of one side.
fn list(rt: &HostRuntime, title: &str, side: &str) -> io::Result<Vec<Event>> {
    let name = format!(in rt.alloc(); "{title}.{side}")?;
    events(rt, name.as_str())
}

fn print_answers(rt: &HostRuntime, side: &str, events: &[Event]) -> io::Result<()> {
    for (number, event) in events.iter().enumerate() {
        println!(rt;
            "{side} {number} {} {}",
            CallText(event.call),
            AnswerText(event.answer)
        )?;
    }
    Ok(())
}

pub fn compare_all(rt: &HostRuntime) -> io::Result<()> {
    compare_with_ours(rt)?;
    compare_foreign(rt)?;
    compare_refused(rt)
}

// A board over the parts that its tree asks for, with one over parts of another make.
fn compare_with_ours(rt: &HostRuntime) -> io::Result<()> {
    let fan_asked = Side::new("rig-fan", asked_for(rt, "rig-fan")?);
    compare_boards(rt, fan_asked, Side::new("rig-fan", fan()))?;
    let line_asked = Side::new("line-before", asked_for(rt, "line-before")?);
    compare_boards(rt, line_asked, Side::new("line-after", line_after()))?;
    let four_asked = Side::new("four-8259as", asked_for(rt, "four-8259as")?);
    compare_boards(rt, four_asked, Side::new("four-8259as", all_four()))?;
    let guest_asked = Side::new("riscv-guest", asked_for(rt, "riscv-guest")?);
    compare_boards(rt, guest_asked, Side::new("riscv-guest", one(under())))?;
    let timer_asked = Side::new("timer-direct", asked_for(rt, "timer-direct")?);
    compare_boards(rt, timer_asked, Side::new("mux-timer", room()))
}

// Parts of another make on both sides.
fn compare_foreign(rt: &HostRuntime) -> io::Result<()> {
    compare_boards(
        rt,
        Side::new("rig-chain", chain()),
        Side::new("rig-fan", fan()),
    )?;
    let alone = Cascade::new(edge(), following(), 5);
    let parts = three(alone, edge(), mux(6));
    compare_boards(
        rt,
        Side::new("line-after", line_after()),
        Side::new("line-after", parts),
    )
}

// The new parts are refused, so that the new board has no routes.
fn compare_refused(rt: &HostRuntime) -> io::Result<()> {
    let flat_asked = Side::new("rig-flat", asked_for(rt, "rig-flat")?);
    compare_boards(rt, flat_asked, Side::new("one-8259a", one(edge())))
}
