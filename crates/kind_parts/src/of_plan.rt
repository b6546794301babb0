ghost use Rattle.std.specs.Prelude.{◌≡◌, ◌≤◌, length, true, Ok};
ghost use Rattle.kinds.specs.Kinds.{kind};
ghost use Rattle.plan.specs.Rules.{PlanRules};
ghost use Rattle.plan.specs.Seen.{planned};
ghost use Rattle.boards.specs.Assembly.{asked, in_order, widths_fit};
ghost use Rattle.boards.specs.Boards.{AllSound};
ghost use Rattle.kind_parts.specs.Makes.{AllOpen, OfPlan, kind_at, lists_for, lists_of};

use crate::of_kind::controller_of;
use any_controller::any::AnyController;
use boards::parts::Parts;
use controller::interface::Controller;
use kinds::kind::Kind;
use plan::tree_plan::Plan;

// The controllers that a plan asks for, in the order of placing. Where it places fewer than four, the others are 8259As, which have no line on
// a board. For the plan of a tree, the question asked of that tree and these has no refusal.
pub fn parts_of(
    plan: &Plan<'_>,
) -> Parts<AnyController, AnyController, AnyController, AnyController>
    ensures lists { lists_of ⟦<AnyController as Controller>⟧ result ≡ lists_for (planned plan.now) }
    ensures kinds { OfPlan (planned plan.now) result }
    ensures sound { AllSound ⟦<AnyController as Controller>⟧ ⟦<AnyController as Controller>⟧ ⟦<AnyController as Controller>⟧ ⟦<AnyController as Controller>⟧ result }
    ensures fits { widths_fit (planned plan.now) (lists_of ⟦<AnyController as Controller>⟧ result) ≡ true }
    ensures opened { AllOpen (in_order (lists_of ⟦<AnyController as Controller>⟧ result)) }
    ensures asked { PlanRules (planned plan.now) → asked (Ok (planned plan.now)) (lists_of ⟦<AnyController as Controller>⟧ result) ≡ Ok (planned plan.now) }
{
    placed_parts(plan)
}

// The four controllers, each of the kind at its place of the order.
fn placed_parts(
    plan: &Plan<'_>,
) -> Parts<AnyController, AnyController, AnyController, AnyController>
    ensures lists { lists_of ⟦<AnyController as Controller>⟧ result ≡ lists_for (planned plan.now) }
    ensures kinds { OfPlan (planned plan.now) result }
    ensures few { length (planned plan.now).order ≤ 4 }
{
    Parts {
        first: controller_of(&kind_at(plan, 0)),
        second: controller_of(&kind_at(plan, 1)),
        third: controller_of(&kind_at(plan, 2)),
        fourth: controller_of(&kind_at(plan, 3)),
    }
}

// The kind of the controller at this place of a plan's order; past its end an 8259A.
fn kind_at<'a>(plan: &Plan<'a>, place: usize) -> Kind<'a>
    ensures is { kind result ≡ kind_at (planned plan.now) place }
    ensures few { length (planned plan.now).order ≤ 4 }
{
    plan.placed_at(place)
        .map_or(Kind::I8259, |placed| placed.kind)
}
