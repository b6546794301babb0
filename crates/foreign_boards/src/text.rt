// The text of questions, routes and offers.
use crate::make::Make;
use board_text::text::SenseText;
use boards::board::Board;
use boards::device::Device;
use boards::parts::Parts;
use controller::interface::Controller;
use faults::report::Report;
use std::{fmt, io};
use tree::tree::Tree;

// The tree and the parts, and what the question answers.
pub fn print_question<A: Make, B: Make, C: Make, D: Make>(
    rt: &HostRuntime,
    name: &str,
    tree: &Tree<'_>,
    parts: &Parts<A, B, C, D>,
) -> io::Result<()> {
    let Parts {
        first,
        second,
        third,
        fourth,
    } = parts;
    println!(rt;
        "{name}: {} {}, {} {}, {} {}, {} {}",
        first.make(),
        first.width(),
        second.make(),
        second.width(),
        third.make(),
        third.width(),
        fourth.make(),
        fourth.width()
    )?;
    match parts.question(tree) {
        Ok(()) => println!(rt; "question accepted"),
        Err(fault) => println!(rt; "question refused: {}", Report::from(fault)),
    }
}

// How many routes a board has, and a line for each.
pub fn print_routes<A: Controller, B: Controller, C: Controller, D: Controller>(
    rt: &HostRuntime,
    board: &Board<A, B, C, D>,
) -> io::Result<()> {
    println!(rt; "routes {}", board.count())?;
    for route in 0..board.count() {
        if let Ok(device) = board.device(route) {
            println!(rt; "route {route} {}", Place(device))?;
        }
    }
    Ok(())
}

// Where a device's route ends.
#[derive(Drop)]
struct Place(Device);

impl fmt::Display for Place {
    fn fmt<W: fmt::Write>(&self, f: &mut fmt::Formatter<W>) -> fmt::Result {
        let Device { route, line } = self.0;
        write!(
            f,
            "node {} specifier {} controller {} input {} line {line} sense {}",
            route.device,
            route.index,
            route.spot.controller,
            route.spot.input,
            SenseText(route.sense)
        )
    }
}

// The route that a claim would name.
#[derive(Drop)]
pub struct OfferText(pub Option<usize>);

impl fmt::Display for OfferText {
    fn fmt<W: fmt::Write>(&self, f: &mut fmt::Formatter<W>) -> fmt::Result {
        match self.0 {
            Some(route) => write!(f, "offer {route}"),
            None => write!(f, "offer none"),
        }
    }
}
