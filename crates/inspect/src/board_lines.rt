// The board that a tree makes, or why it makes none.
use board_text::text::SenseText;
use faults::report::Report;
use kinds::kind::Kind;
use listing::path::Path;
use listing::stop::Stop;
use plan::placed::{Controller, Parent};
use plan::route::Route;
use plan::tree_plan::Plan;
use std::alloc::{AllocError, Global};
use tree::tree::Tree;

// The text with a line more for each controller, then for each route, in the order of their numbers; or with the refusal.
pub fn list_board<'a>(heap: Global, tree: &Tree<'a>, text: Vec<u8>) -> Result<Vec<u8>, Stop> {
    let mut out = text;
    match Plan::of(tree) {
        Ok(plan) => add_board(heap, tree, &plan, &mut out)?,
        Err(fault) => {
            let report = Report::from(fault);
            let line = format!(in heap; "board refused: {report}\n")?;
            out.extend_from_slice(line.as_bytes())?;
        }
    }
    Ok(out)
}

// The lines of a board.
fn add_board<'a>(
    heap: Global,
    tree: &Tree<'a>,
    plan: &Plan<'a>,
    out: &mut Vec<u8>,
) -> Result<(), Stop> {
    for (number, controller) in plan.controllers().iter().enumerate() {
        let line = controller_line(heap, plan, number, controller)?;
        out.extend_from_slice(line.as_bytes())?;
    }
    let mut path = Path::new(heap);
    for node in tree.nodes() {
        let node = node?;
        path.enter(&node)?;
        for (number, route) in plan.routes().iter().enumerate() {
            if route.device == node.place {
                let line = device_line(heap, plan, number, route)?;
                out.extend_from_slice(line.as_bytes())?;
                path.write_to(out)?;
                out.push(b'\n')?;
            }
        }
    }
    Ok(())
}

// A controller's kind and width, its lines, and where it is cascaded.
fn controller_line<'a>(
    heap: Global,
    plan: &Plan<'a>,
    number: usize,
    controller: &Controller<'a>,
) -> Result<String, AllocError> {
    let kind = match controller.kind {
        Kind::I8259 => "8259A",
        Kind::Plic(..) => "PLIC",
        Kind::StatusMux(_) => "mux",
    };
    let width = controller.kind.width();
    let first = controller.first_line.unwrap_or(0);
    let last = first.saturating_add(width).saturating_sub(1);
    let node = controller.node;
    let front = format!(in heap;
        "controller {number} {kind} width {width} at {node} lines {first} to {last}"
    )?;
    match controller.parent {
        Parent::At(spot) => {
            let line = plan.line(spot).unwrap_or(0);
            format!(in heap; "{front} cascaded at line {line}\n")
        }
        Parent::Root | Parent::Several => format!(in heap; "{front} root\n"),
    }
}

// A device's route: where it ends, its line and its sense.
fn device_line(
    heap: Global,
    plan: &Plan<'_>,
    number: usize,
    route: &Route,
) -> Result<String, AllocError> {
    let Route {
        device,
        index,
        spot,
        sense,
        ..
    } = *route;
    let line = plan.line(spot).unwrap_or(0);
    format!(in heap;
        "device {number} node {device} specifier {index} controller {} input {} line {line} sense {} ",
        spot.controller,
        spot.input,
        SenseText(sense)
    )
}
