ghost use Rattle.std.specs.Prelude.{◌≡◌};
ghost use Rattle.tree.specs.Reads.{nodes_of};
ghost use Rattle.boards.specs.Boards.{AssembledRan, BoardLed, BoardsLaw, Drawn, devices_in};
ghost use Rattle.boards.specs.Devices.{calls_in};

use crate::board::Board;
use crate::parts::{Four, Parts};
use controller::interface::Controller;
use history::call::Event;
use tree::tree::Tree;

// Assembles an old and a new board, each of its own tree and four controllers of any make, and runs a list of calls on each. Whatever the
// trees, the controllers and the lists, the two boards keep the law: each is after its own list; devices of one sense with equal own
// steps have equal records; edge devices with equal changes, both kept up with, were named by equally many claims.
pub fn compare<
    A: Controller,
    B: Controller,
    C: Controller,
    D: Controller,
    E: Controller,
    F: Controller,
    G: Controller,
    H: Controller,
>(
    old_tree: &Tree<'_>,
    old_parts: Parts<A, B, C, D>,
    old_events: &mut [Event],
    new_tree: &Tree<'_>,
    new_parts: Parts<E, F, G, H>,
    new_events: &mut [Event],
) -> (Board<A, B, C, D>, Board<E, F, G, H>)
    ensures law { BoardsLaw ⟦<Four<A, B, C, D> as Controller>⟧ result.0 old_events.new ⟦<Four<E, F, G, H> as Controller>⟧ result.1 new_events.new }
    ensures old_led { BoardLed ⟦<Four<A, B, C, D> as Controller>⟧ result.0 old_events.new }
    ensures new_led { BoardLed ⟦<Four<E, F, G, H> as Controller>⟧ result.1 new_events.new }
    ensures old_ran { AssembledRan A.Controller B.Controller C.Controller D.Controller ⟦<Four<A, B, C, D> as Controller>⟧ (nodes_of old_tree.now) old_parts old_events.new result.0 }
    ensures new_ran { AssembledRan E.Controller F.Controller G.Controller H.Controller ⟦<Four<E, F, G, H> as Controller>⟧ (nodes_of new_tree.now) new_parts new_events.new result.1 }
    ensures old { Drawn A.Controller B.Controller C.Controller D.Controller (nodes_of old_tree.now) old_parts (devices_in result.0) }
    ensures new { Drawn E.Controller F.Controller G.Controller H.Controller (nodes_of new_tree.now) new_parts (devices_in result.1) }
    ensures old_calls { calls_in old_events.new ≡ calls_in old_events.old }
    ensures new_calls { calls_in new_events.new ≡ calls_in new_events.old }
{
    let mut old = Board::assemble(old_tree, old_parts);
    old.run(old_events);
    let mut new = Board::assemble(new_tree, new_parts);
    new.run(new_events);
    (old, new)
}
