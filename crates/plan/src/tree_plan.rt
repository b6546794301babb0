ghost use Rattle.std.specs.Prelude.{◌≡◌, ◌≤◌, IfOk, length, map};
ghost use Rattle.tree.specs.Reads.{nodes_of};
ghost use Rattle.plan.specs.Controllers.{made};
ghost use Rattle.plan.specs.Plans.{held, line_of, placed_at, plan_of};
ghost use Rattle.plan.specs.Rules.{PlanRules};
ghost use Rattle.plan.specs.Seen.{made_option, plan_seen, planned, routed};

use crate::draft::Draft;
use crate::placed::{Controller, Spot};
use crate::placing::Placing;
use crate::reading::controllers;
use crate::route::Route;
use arrayvec::ArrayVec;
use board_faults::BoardFault;
use indexed::Indexed;
use tree::tree::Tree;

// The plan of a tree: its controllers in blob order, their numbers in the order of placing, and the routes of its devices in blob order.
#[derive(Drop)]
pub struct Plan<'a> {
    controllers: ArrayVec<Controller<'a>, 4>,
    order: ArrayVec<usize, 4>,
    routes: ArrayVec<Route, 256>,
}

impl<'a> Plan<'a> {
    // The plan of a tree, or the first refusal: 8 and 10 for controllers, in blob order; 11; 8 and 12 to 20 for specifiers, in blob order; 21;
    // then 22, at the first specifier that ends where one before it does.
    pub fn of(tree: &Tree<'a>) -> Result<Plan<'a>, BoardFault>
        ensures is { plan_seen result ≡ plan_of (nodes_of tree.now) }
        ensures rules { IfOk result (λ p. PlanRules (planned p)) }
    {
        let mut draft = Draft::new(controllers(tree)?);
        let indexed = Indexed::of(tree);
        draft.read(&indexed)?;
        let placing = Placing::all(draft.controllers)?;
        if let Some(holder) = draft.second {
            return Err(BoardFault::Second(holder));
        }
        Ok(Plan {
            controllers: placing.controllers,
            order: placing.order,
            routes: draft.routes,
        })
    }

    // The controllers, in blob order.
    pub fn controllers(&self) -> &[Controller<'a>]
        ensures { map made result.now ≡ (planned self.now).controllers }
    {
        self.controllers.as_slice()
    }

    // The numbers of the controllers, in the order of placing; 4 at most.
    pub fn order(&self) -> &[usize]
        ensures is { result.now ≡ (planned self.now).order }
        ensures few { length result.now ≤ 4 }
    {
        self.order.as_slice()
    }

    // The controller at this place of the order of placing, which has four places at most.
    pub fn placed_at(&self, place: usize) -> Option<Controller<'a>>
        ensures is { made_option result ≡ placed_at (planned self.now) place }
        ensures few { length (planned self.now).order ≤ 4 }
    {
        let k = *self.order().get(place)?;
        self.controllers().get(k).copied()
    }

    // The routes, in blob order; 256 at most.
    pub fn routes(&self) -> &[Route]
        ensures is { map routed result.now ≡ (planned self.now).routes }
        ensures few { length result.now ≤ 256 }
    {
        self.routes.as_slice()
    }

    // The line where a specifier ends: the input, plus the widths of the controllers placed before its controller.
    pub fn line(&self, spot: Spot) -> Option<usize>
        ensures { result ≡ held (line_of (planned self.now).controllers spot) }
    {
        let first = self
            .controllers
            .as_slice()
            .get(spot.controller)?
            .first_line?;
        first.checked_add(spot.input)
    }
}
