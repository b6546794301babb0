// Boards on which a list of calls is made, one by one.
use crate::files::{blob, events, opened};
use crate::make::Make;
use crate::shapes::{
    all_four, bus, chip, edge, fan, following, gated, line_after, mux, one, room, sixteen, ten,
    three, two, under,
};
use crate::standing::{print_standings, standings};
use crate::text::{OfferText, print_question, print_routes};
use board_text::text::{AnswerText, CallText};
use boards::board::Board;
use boards::parts::Parts;
use history::call::Event;
use std::io;

// One case: every answer with the offer after it, and how each device stands at the end.
fn run<A: Make + Drop, B: Make + Drop, C: Make + Drop, D: Make + Drop>(
    rt: &HostRuntime,
    name: &str,
    parts: Parts<A, B, C, D>,
) -> io::Result<()> {
    let bytes = blob(rt, name)?;
    let tree = opened(bytes.as_slice())?;
    print_question(rt, name, &tree, &parts)?;
    let mut board = Board::assemble(&tree, parts);
    print_routes(rt, &board)?;
    let mut events = events(rt, name)?;
    print_calls(rt, &mut board, events.as_mut_slice())?;
    let standings = standings(rt.alloc(), &board, events.as_slice())?;
    print_standings(rt, "board", standings.as_slice())
}

fn print_calls<A: Make, B: Make, C: Make, D: Make>(
    rt: &HostRuntime,
    board: &mut Board<A, B, C, D>,
    events: &mut [Event],
) -> io::Result<()> {
    println!(rt; "{}", OfferText(board.offer()))?;
    for (number, event) in events.iter_mut().enumerate() {
        event.answer = board.call(event.call);
        let call = CallText(event.call);
        let answer = AnswerText(event.answer);
        println!(rt;
            "board {number} {call} {answer}, {}",
            OfferText(board.offer())
        )?;
    }
    Ok(())
}

pub fn run_all(rt: &HostRuntime) -> io::Result<()> {
    run(rt, "empty-strings", one(edge()))?;
    run(rt, "riscv-guest", one(under()))?;
    run(rt, "line-after", line_after())?;
    run(rt, "8259a-over-mux", two(edge(), mux(5)))?;
    run(rt, "four-8259as", all_four())?;
    run(rt, "nexus-to-three", three(following(), edge(), gated()))?;
    run(rt, "mux-timer", room())?;
    run(rt, "fieldbus", bus(sixteen(0)))?;
    run(rt, "plic-over-8259a", two(ten(), edge()))?;
    run(rt, "8259a-over-plic", two(chip(), ten()))?;
    run(rt, "rig-fan", fan())?;
    run(rt, "one-8259a", one(edge()))
}
