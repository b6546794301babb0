ghost use Rattle.std.specs.Prelude.{◌≡◌, IfOk, Ok, map};
ghost use Rattle.tree.specs.Reads.{nodes_of};
ghost use Rattle.plan.specs.Plans.{placed_at, plan_of};
ghost use Rattle.plan.specs.Rules.{PlanRules};
ghost use Rattle.plan.specs.Seen.{plan_seen, planned};
ghost use Rattle.controller.specs.Meaning.{all_reset};
ghost use Rattle.boards.specs.Assembly.{asked, cascade_line as cascade_line_in, ends_open, in_order, is_open, is_width, parent_open, parents_open, question_of, reset_lists, routes_open, seats_of, unwired, widths_fit, wired_lines, wiring_of};
ghost use Rattle.boards.specs.Boards.{AllSound, lists_in};
ghost use Rattle.boards.specs.Seats.{seats};

use crate::device::Device;
use arrayvec::ArrayVec;
use board_faults::BoardFault;
use cascade::pair::Cascade;
use controller::interface::Controller;
use plan::placed::Parent;
use plan::tree_plan::Plan;
use tree::tree::Tree;

// Four controllers of any make, in the order of placing. Those past a tree's count have no line.
#[derive(Drop)]
pub struct Parts<A, B, C, D> {
    pub first: A,
    pub second: B,
    pub third: C,
    pub fourth: D,
}

// Four controllers, cascaded one after another.
pub type Four<A, B, C, D> = Cascade<Cascade<Cascade<A, B>, C>, D>;

// The lines where the second, the third and the fourth controller are cascaded; none where one stays alone.
#[derive(Clone, Copy, PartialEq, Eq, Debug)]
pub(crate) struct Wiring {
    pub(crate) second: Option<usize>,
    pub(crate) third: Option<usize>,
    pub(crate) fourth: Option<usize>,
}

// Whether a controller of this width may stand at this place of a plan's order. Those past the plan's count are not asked.
fn takes_width(plan: &Plan<'_>, place: usize, width: usize) -> bool
    ensures { result ≡ is_width width (placed_at (planned plan.now) place) }
{
    match plan.placed_at(place) {
        Some(placed) => placed.kind.width() == width,
        None => true,
    }
}

// The line where the controller at this place of a plan's order is cascaded.
fn cascade_line(plan: &Plan<'_>, place: usize) -> Option<usize>
    ensures { result ≡ cascade_line_in (planned plan.now) place }
{
    match plan.placed_at(place)?.parent {
        Parent::At(spot) => plan.line(spot),
        Parent::Root | Parent::Several => None,
    }
}

// The devices of a plan, each with the line of its route.
fn devices_of(plan: &Plan<'_>) -> ArrayVec<Device, 256>
    ensures { seats result ≡ seats_of (Ok (planned plan.now)) }
{
    let mut devices = ArrayVec::new();
    for route in plan.routes() {
        // Every route of a plan has a line.
        let line = plan.line(route.spot).unwrap_or(0);
        devices.push(Device {
            route: *route,
            line,
        });
    }
    devices
}

// Where the controllers of a plan are cascaded, and its devices; a refusal has none.
pub(crate) fn drawn(plan: &Result<Plan<'_>, BoardFault>) -> (Wiring, ArrayVec<Device, 256>)
    ensures wiring { result.0 ≡ wiring_of (plan_seen plan.now) }
    ensures devices { seats result.1 ≡ seats_of (plan_seen plan.now) }
{
    match plan {
        Ok(plan) => (Wiring::of(plan), devices_of(plan)),
        Err(_) => (Wiring::none(), ArrayVec::new()),
    }
}

impl Wiring {
    // Where a plan cascades its controllers.
    fn of(plan: &Plan<'_>) -> Wiring
        ensures { result ≡ wiring_of (Ok (planned plan.now)) }
    {
        Wiring {
            second: cascade_line(plan, 1),
            third: cascade_line(plan, 2),
            fourth: cascade_line(plan, 3),
        }
    }

    // None is cascaded.
    fn none() -> Wiring
        ensures { result ≡ unwired }
    {
        Wiring {
            second: None,
            third: None,
            fourth: None,
        }
    }
}

impl<A: Controller, B: Controller, C: Controller, D: Controller> Parts<A, B, C, D> {
    // Why a board of a tree and these controllers has no routes: the tree's refusal; or 23, where one of those that the tree places has
    // another width than the tree says, or a specifier ends at a line of theirs that is wired.
    pub fn question(&self, tree: &Tree<'_>) -> Result<(), BoardFault>
        ensures { AllSound A.Controller B.Controller C.Controller D.Controller self.now
            → result ≡ question_of (asked (plan_of (nodes_of tree.now)) (lists_in A.Controller B.Controller C.Controller D.Controller self.now)) }
    {
        self.plan(tree)?;
        Ok(())
    }

    // The tree's plan, where the question has no refusal.
    pub(crate) fn plan<'t>(&self, tree: &Tree<'t>) -> Result<Plan<'t>, BoardFault>
        ensures is { AllSound A.Controller B.Controller C.Controller D.Controller self.now
            → plan_seen result ≡ asked (plan_of (nodes_of tree.now)) (lists_in A.Controller B.Controller C.Controller D.Controller self.now) }
        ensures rules { IfOk result (λ p. PlanRules (planned p)) }
    {
        let plan = Plan::of(tree)?;
        if self.has_widths(&plan) && self.has_open_ends(&plan) {
            Ok(plan)
        } else {
            Err(BoardFault::Parts)
        }
    }

    // Whether each that a plan places is as wide as it says.
    fn has_widths(&self, plan: &Plan<'_>) -> bool
        ensures { AllSound A.Controller B.Controller C.Controller D.Controller self.now
            → result ≡ widths_fit (planned plan.now) (lists_in A.Controller B.Controller C.Controller D.Controller self.now) }
    {
        takes_width(plan, 0, self.first.width())
            && takes_width(plan, 1, self.second.width())
            && takes_width(plan, 2, self.third.width())
            && takes_width(plan, 3, self.fourth.width())
    }

    // Whether the line where each specifier ends, a device's or a controller's, is open.
    fn has_open_ends(&self, plan: &Plan<'_>) -> bool
        ensures { AllSound A.Controller B.Controller C.Controller D.Controller self.now
            → result ≡ ends_open (planned plan.now) (in_order (lists_in A.Controller B.Controller C.Controller D.Controller self.now)) }
    {
        self.has_open_routes(plan) && self.has_open_parents(plan)
    }

    // Whether the line of each route is open.
    fn has_open_routes(&self, plan: &Plan<'_>) -> bool
        ensures { AllSound A.Controller B.Controller C.Controller D.Controller self.now
            → result ≡ routes_open (planned plan.now) (in_order (lists_in A.Controller B.Controller C.Controller D.Controller self.now)) }
    {
        plan.routes()
            .iter()
            .all(|route| self.is_open(plan.line(route.spot)))
    }

    // Whether the line where each controller is cascaded is open.
    fn has_open_parents(&self, plan: &Plan<'_>) -> bool
        ensures { AllSound A.Controller B.Controller C.Controller D.Controller self.now
            → result ≡ parents_open (planned plan.now) (in_order (lists_in A.Controller B.Controller C.Controller D.Controller self.now)) }
    {
        plan.controllers()
            .iter()
            .all(|placed| self.is_parent_open(plan, placed.parent))
    }

    // Whether the line where a controller of this parent is cascaded is open, if it is.
    fn is_parent_open(&self, plan: &Plan<'_>, parent: Parent) -> bool
        ensures { AllSound A.Controller B.Controller C.Controller D.Controller self.now
            → result ≡ parent_open (planned plan.now) (in_order (lists_in A.Controller B.Controller C.Controller D.Controller self.now)) parent }
    {
        match parent {
            Parent::At(spot) => self.is_open(plan.line(spot)),
            Parent::Root | Parent::Several => true,
        }
    }

    // Whether there is such a line, and it is open; the lines of all four are numbered one after another.
    fn is_open(&self, line: Option<usize>) -> bool
        ensures { AllSound A.Controller B.Controller C.Controller D.Controller self.now
            → result ≡ is_open (in_order (lists_in A.Controller B.Controller C.Controller D.Controller self.now)) line }
    {
        let Some(line) = line else {
            return false;
        };
        let wide = self.first.width();
        if line < wide {
            return self.first.record(line).is_ok();
        }
        let line = line - wide;
        let wide = self.second.width();
        if line < wide {
            return self.second.record(line).is_ok();
        }
        let line = line - wide;
        let wide = self.third.width();
        if line < wide {
            return self.third.record(line).is_ok();
        }
        self.fourth.record(line - wide).is_ok()
    }

    // Resets all four.
    pub(crate) fn reset(&mut self)
        ensures sound { AllSound A.Controller B.Controller C.Controller D.Controller self.new }
        ensures resets { AllSound A.Controller B.Controller C.Controller D.Controller self.old
            → lists_in A.Controller B.Controller C.Controller D.Controller self.new ≡ reset_lists (lists_in A.Controller B.Controller C.Controller D.Controller self.old) }
    {
        self.first.reset();
        self.second.reset();
        self.third.reset();
        self.fourth.reset();
    }

    // The four cascaded at these lines, each as the child of all before it. It is reset.
    pub(crate) fn cascaded(self, wiring: Wiring) -> Four<A, B, C, D>
        requires sound { AllSound A.Controller B.Controller C.Controller D.Controller self }
        ensures sound { ⟦<Four<A, B, C, D> as Controller>⟧.sound result }
        ensures rests { (⟦<Four<A, B, C, D> as Controller>⟧.meaning result).lines ≡ all_reset (⟦<Four<A, B, C, D> as Controller>⟧.meaning result).lines }
        ensures lines { (⟦<Four<A, B, C, D> as Controller>⟧.meaning result).lines ≡ wired_lines (lists_in A.Controller B.Controller C.Controller D.Controller self) wiring }
    {
        let two = Cascade::at(self.first, self.second, wiring.second);
        let three = Cascade::at(two, self.third, wiring.third);
        Cascade::at(three, self.fourth, wiring.fourth)
    }
}
