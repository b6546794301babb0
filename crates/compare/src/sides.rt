// The two sides of a comparison, and what the run of each comes to.
use crate::parts::{AnyBoard, parts_for};
use crate::standing::{Standing, standings};
use boards::board::Board;
use boards::law::compare;
use faults::report::Report;
use history::call::Event;
use listing::stop::Stop;
use plan::tree_plan::Plan;
use std::alloc::Global;
use tree::tree::Tree;

// What is handed in: a blob, and the calls of the guest.
#[derive(Drop)]
pub struct Side {
    pub blob: Vec<u8>,
    pub events: Vec<Event>,
}

// What a run came to: why there is no board, or why the board has no routes; the events, of which there are none without a board; and how
// each device stands.
#[derive(Drop)]
pub struct Outcome {
    pub refusal: Option<Report>,
    pub events: Vec<Event>,
    pub devices: Vec<Standing>,
}

// Runs both lists, each on the board of its tree, by one comparison of the two boards. A blob that is refused makes no board: then the
// other side is run alone.
pub fn run_both(heap: Global, old: Side, new: Side) -> Result<(Outcome, Outcome), Stop> {
    let Side {
        blob: old_blob,
        events: mut old_events,
    } = old;
    let Side {
        blob: new_blob,
        events: mut new_events,
    } = new;
    let old_tree = Tree::open(old_blob.as_slice());
    let new_tree = Tree::open(new_blob.as_slice());
    match (old_tree, new_tree) {
        (Ok(old_tree), Ok(new_tree)) => {
            let (old_board, new_board) = compare(
                &old_tree,
                parts_for(&old_tree),
                old_events.as_mut_slice(),
                &new_tree,
                parts_for(&new_tree),
                new_events.as_mut_slice(),
            );
            Ok((
                Outcome::of(heap, &old_tree, &old_board, old_events)?,
                Outcome::of(heap, &new_tree, &new_board, new_events)?,
            ))
        }
        (Ok(old_tree), Err(fault)) => Ok((
            run_alone(heap, &old_tree, old_events)?,
            Outcome::refused(heap, Report::from(fault)),
        )),
        (Err(fault), Ok(new_tree)) => Ok((
            Outcome::refused(heap, Report::from(fault)),
            run_alone(heap, &new_tree, new_events)?,
        )),
        (Err(old_fault), Err(new_fault)) => Ok((
            Outcome::refused(heap, Report::from(old_fault)),
            Outcome::refused(heap, Report::from(new_fault)),
        )),
    }
}

// Runs a list on the board of a tree.
fn run_alone(heap: Global, tree: &Tree<'_>, mut events: Vec<Event>) -> Result<Outcome, Stop> {
    let mut board = Board::assemble(tree, parts_for(tree));
    board.run(events.as_mut_slice());
    Outcome::of(heap, tree, &board, events)
}

impl Outcome {
    // What a run on the board of a tree came to.
    fn of(
        heap: Global,
        tree: &Tree<'_>,
        board: &AnyBoard,
        events: Vec<Event>,
    ) -> Result<Outcome, Stop> {
        let devices = standings(heap, tree, board, events.as_slice())?;
        Ok(Outcome {
            refusal: Plan::of(tree).err().map(|fault| Report::from(fault)),
            events,
            devices,
        })
    }

    // Of a blob that is refused nothing is run.
    fn refused(heap: Global, report: Report) -> Outcome {
        Outcome {
            refusal: Some(report),
            events: Vec::new(heap),
            devices: Vec::new(heap),
        }
    }
}
