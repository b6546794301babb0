ghost use Rattle.std.specs.Prelude.{◌≡◌, ◌+◌, ◌*◌, ◌≤◌, ◌<◌, length, slice_get, OnOk};
ghost use Rattle.plan.specs.Controllers.{made};
ghost use Rattle.plan.specs.Placings.{is_placed, may_place, next_placed, place_at, place_one, placed};
ghost use Rattle.plan.specs.Seen.{controllers_in, placing, placing_now, placing_seen};

use crate::placed::{Controller, Parent};
use arrayvec::ArrayVec;
use board_faults::BoardFault;

// The controllers, the numbers of those that are placed in the order of placing, and how many lines these have.
#[derive(Drop)]
pub(crate) struct Placing<'a> {
    pub(crate) controllers: ArrayVec<Controller<'a>, 4>,
    pub(crate) order: ArrayVec<usize, 4>,
    lines: usize,
}

impl<'a> Placing<'a> {
    // Places all controllers: first the root, then always the smallest-numbered whose parent is placed; 21 where one cannot be placed.
    #[tactic(auto, using(crate::proofs::Steps::place_once, crate::proofs::Steps::place_stop))]
    pub(crate) fn all(controllers: ArrayVec<Controller<'a>, 4>) -> Result<Placing<'a>, BoardFault>
        ensures { placing_seen result ≡ placed (controllers_in controllers.entry) }
    {
        let count = controllers.len();
        let mut placing = Placing {
            controllers,
            order: ArrayVec::new(),
            lines: 0,
        };
        for _placed in 0..count {
            placing.place_one()?;
        }
        Ok(placing)
    }

    // Places one controller more: the smallest-numbered that may be placed.
    fn place_one(&mut self) -> Result<(), BoardFault>
        requires room { length self.old.order.items < 4 }
        requires low { self.old.lines ≤ 64 * length self.old.order.items }
        ensures is { placing_now self.new result ≡ place_one (placing self.old) }
        ensures few { OnOk result (self.new.lines ≤ 64 * length self.new.order.items) }
        ensures one { OnOk result (length self.new.order.items ≡ length self.old.order.items + 1) }
    {
        let k = self.next().ok_or(BoardFault::Root)?;
        self.place(k)
    }

    // The smallest-numbered controller that may be placed.
    fn next(&self) -> Option<usize>
        ensures { result ≡ next_placed (placing self.now) }
    {
        self.controllers
            .as_slice()
            .iter()
            .position(|controller| self.may_place(controller))
    }

    // Places a controller; its lines come after those of the controllers that are placed.
    fn place(&mut self, k: usize) -> Result<(), BoardFault>
        requires room { length self.old.order.items < 4 }
        requires low { self.old.lines ≤ 64 * length self.old.order.items }
        ensures is { placing_now self.new result ≡ place_at k (placing self.old) }
        ensures few { OnOk result (self.new.lines ≤ 64 * length self.new.order.items) }
        ensures one { OnOk result (length self.new.order.items ≡ length self.old.order.items + 1) }
    {
        let Some(controller) = self.controllers.get_mut(k) else {
            return Err(BoardFault::Root);
        };
        controller.first_line = Some(self.lines);
        self.lines += controller.kind.width();
        self.order.push(k);
        Ok(())
    }

    // Whether a controller is not placed, and is the root where none is placed, or has a parent that is placed.
    fn may_place(&self, controller: &Controller<'_>) -> bool
        ensures { result ≡ may_place (placing self.now) (made controller.now) }
    {
        controller.first_line.is_none()
            && match controller.parent {
                Parent::Root => self.order.is_empty(),
                Parent::At(spot) => self.is_placed(spot.controller),
                Parent::Several => false,
            }
    }

    // Whether the controller of this number is placed.
    fn is_placed(&self, k: usize) -> bool
        ensures { result ≡ is_placed (slice_get (controllers_in self.now.controllers) k) }
    {
        self.controllers
            .as_slice()
            .get(k)
            .is_some_and(|controller| controller.first_line.is_some())
    }
}
