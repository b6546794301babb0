// The four controllers that a tree asks for.
use any_controller::any::AnyController;
use boards::board::Board;
use boards::parts::Parts;
use i8259::chip::FullyNested;
use kind_parts::of_plan::parts_of;
use plan::tree_plan::Plan;
use tree::tree::Tree;

// Four controllers, each of any of the three kinds.
pub type AnyParts = Parts<AnyController, AnyController, AnyController, AnyController>;

// A board over four such controllers.
pub type AnyBoard = Board<AnyController, AnyController, AnyController, AnyController>;

// The controllers of the kinds that the plan of a tree places. A tree without a plan makes a board without routes over any four.
pub fn parts_for(tree: &Tree<'_>) -> AnyParts {
    match Plan::of(tree) {
        Ok(plan) => parts_of(&plan),
        Err(_) => Parts {
            first: any_one(),
            second: any_one(),
            third: any_one(),
            fourth: any_one(),
        },
    }
}

// The controller that has no line on the board.
fn any_one() -> AnyController {
    AnyController::I8259(FullyNested::controller())
}
