//! What the benchmark calls, from C or from plain Rust: a blob is opened and planned, and a list of calls is run on the board that its tree
//! makes. A byte string or a list of words is handed over as a pointer and a length. An export takes no enum and hands out no slice; so a
//! call is a word, an answer goes into a sum of words, and a fault is its layer a thousand times and its number. A blob is opened anew
//! in each call, since what is opened borrows its bytes and cannot be handed out. Nothing here allocates.
#![tactic(auto)]

ghost use Rattle.std.specs.Prelude.{◌≡◌};
ghost use Rattle.tree.specs.Opening.{open_of};
ghost use Rattle.bench_lib.specs.Codes.{both_code, open_code};

mod codes;
mod sums;
mod words;

use any_controller::any::AnyController;
use boards::board::Board;
use codes::{open_code, plan_code};
use kind_parts::of_plan::parts_of;
use plan::tree_plan::Plan;
use std::mem::size_of;
use sums::{Sum, plan_sum, tree_sum};
use tree::tree::Tree;
use words::{answer_word, call_of};

// A board of the three kinds.
type AnyBoard = Board<AnyController, AnyController, AnyController, AnyController>;

// Opens a blob: 0, or its fault.
#[unsafe(no_mangle)]
pub extern "C" fn bench_open(bytes: &[u8]) -> u32
    ensures { result ≡ open_code (open_of bytes.now) }
{
    match Tree::open(bytes) {
        Ok(_) => 0,
        Err(fault) => open_code(fault),
    }
}

// Opens a blob and plans its tree: 0, or the fault.
#[unsafe(no_mangle)]
pub extern "C" fn bench_plan(bytes: &[u8]) -> u32
    ensures { result ≡ both_code (open_of bytes.now) }
{
    match Tree::open(bytes) {
        Ok(tree) => plan_code(&Plan::of(&tree)),
        Err(fault) => open_code(fault),
    }
}

// How many nodes a blob has; 0 where it does not open.
#[unsafe(no_mangle)]
pub extern "C" fn bench_nodes(bytes: &[u8]) -> usize {
    let Ok(tree) = Tree::open(bytes) else {
        return 0;
    };
    let mut count: usize = 0;
    for _node in tree.nodes() {
        count = count.saturating_add(1);
    }
    count
}

// How many routes the plan of a blob has; 0 where there is none.
#[unsafe(no_mangle)]
pub extern "C" fn bench_routes(bytes: &[u8]) -> usize {
    let Ok(tree) = Tree::open(bytes) else {
        return 0;
    };
    match Plan::of(&tree) {
        Ok(plan) => plan.routes().len(),
        Err(_) => 0,
    }
}

// The sum of a blob's nodes and properties, or of its fault with both places.
#[unsafe(no_mangle)]
pub extern "C" fn bench_tree_sum(bytes: &[u8]) -> u64 {
    match Tree::open(bytes) {
        Ok(tree) => tree_sum(&tree),
        Err(fault) => Sum::of_report(fault.into()),
    }
}

// The sum of all that is in a blob's plan, or of the fault with both places.
#[unsafe(no_mangle)]
pub extern "C" fn bench_plan_sum(bytes: &[u8]) -> u64 {
    let tree = match Tree::open(bytes) {
        Ok(tree) => tree,
        Err(fault) => return Sum::of_report(fault.into()),
    };
    match Plan::of(&tree) {
        Ok(plan) => plan_sum(&plan),
        Err(fault) => Sum::of_report(fault.into()),
    }
}

// Runs a list of calls so many times on the board of a blob, and answers the sum of the answers and of the records at the end; 0 where
// there is no plan.
#[unsafe(no_mangle)]
pub extern "C" fn bench_run(bytes: &[u8], calls: &[u32], times: u32) -> u64 {
    let Ok(tree) = Tree::open(bytes) else {
        return 0;
    };
    let Ok(plan) = Plan::of(&tree) else {
        return 0;
    };
    let mut board = Board::assemble(&tree, parts_of(&plan));
    let mut sum = Sum::new();
    for _time in 0..times {
        run_once(&mut board, calls, &mut sum);
    }
    for route in 0..board.count() {
        if let Ok(line) = board.record(route) {
            sum.add_row(line.into());
        }
    }
    sum.value()
}

// One call on the board of a blob as assembly leaves it, and its answer as a word; 0 where there is no plan.
#[unsafe(no_mangle)]
pub extern "C" fn bench_one_call(bytes: &[u8], call: u32) -> u64 {
    let Ok(tree) = Tree::open(bytes) else {
        return 0;
    };
    let Ok(plan) = Plan::of(&tree) else {
        return 0;
    };
    let mut board = Board::assemble(&tree, parts_of(&plan));
    answer_word(board.call(call_of(call)))
}

// The bytes of a board of the three kinds.
#[unsafe(no_mangle)]
pub extern "C" fn bench_board_size() -> usize {
    size_of::<AnyBoard>()
}

// The bytes of a plan.
#[unsafe(no_mangle)]
pub extern "C" fn bench_plan_size() -> usize {
    size_of::<Plan<'static>>()
}

// The calls of a list, once.
fn run_once(board: &mut AnyBoard, calls: &[u32], sum: &mut Sum) {
    for word in calls {
        sum.add(answer_word(board.call(call_of(*word))));
    }
}
