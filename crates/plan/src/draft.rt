ghost use Rattle.std.specs.Prelude.{◌≡◌, slice_get};
ghost use Rattle.specifiers.specs.Specifiers.{specified};
ghost use Rattle.specifiers.specs.Cuts.{specifiers_of};
ghost use Rattle.tree.specs.Reads.{entry_in, nodes_of};
ghost use Rattle.plan.specs.Drafts.{added, cascaded_at, controller_at, drawn_from, end_of, node_drawn, routed_to, taken, with_cascaded, with_noted, with_route};
ghost use Rattle.plan.specs.Plans.{blank};
ghost use Rattle.plan.specs.Seen.{controllers_in, drawn, drawn_seen, end_seen, ended_now, made_option};

use crate::placed::{Controller, Spot};
use crate::route::Route;
use arrayvec::ArrayVec;
use board_faults::BoardFault;
use faults::fault::RouteFault;
use faults::place::{At, Place};
use indexed::Indexed;
use routing::route;
use search::keyed::first_match;
use specifiers::Specifier;
use specifiers::list::specifiers;
use tree::node::Node;

// The controllers of a tree, and what its specifiers, read so far in blob order, make of it: the controllers' parents, the routes, and the
// first specifier that ends where one before it does.
#[derive(Drop)]
pub(crate) struct Draft<'a> {
    pub(crate) controllers: ArrayVec<Controller<'a>, 4>,
    pub(crate) routes: ArrayVec<Route, 256>,
    pub(crate) second: Option<At>,
}

// Where a specifier ends.
#[derive(Clone, Copy, PartialEq, Eq, Debug)]
struct End {
    route: Route,
    holder: At,
}

impl<'a> Draft<'a> {
    // The controllers, before any specifier is read.
    pub(crate) fn new(controllers: ArrayVec<Controller<'a>, 4>) -> Draft<'a>
        ensures { drawn result ≡ blank (controllers_in controllers.entry) }
    {
        Draft {
            controllers,
            routes: ArrayVec::new(),
            second: None,
        }
    }

    // Reads every specifier of a tree: its route's faults, 8 and 12 to 18, 19 where it names no input, 20 for a 257th route.
    pub(crate) fn read(&mut self, indexed: &Indexed<'a>) -> Result<(), BoardFault>
        ensures { drawn_seen self.new result ≡ drawn_from (nodes_of indexed.now.tree) (drawn self.old) (nodes_of indexed.now.tree) }
    {
        for node in indexed.tree.nodes() {
            self.read_node(indexed, &node?)?;
        }
        Ok(())
    }

    // Reads the specifiers of a node.
    fn read_node(&mut self, indexed: &Indexed<'a>, node: &Node<'a>) -> Result<(), BoardFault>
        ensures { drawn_seen self.new result ≡ node_drawn (nodes_of indexed.now.tree) (drawn self.old) (specifiers_of (nodes_of indexed.now.tree) (entry_in indexed.now.tree node.now)) }
    {
        for specifier in specifiers(indexed, node) {
            self.add(indexed, &specifier?)?;
        }
        Ok(())
    }

    // Adds a specifier: to its controller where it is a controller's, else to the routes.
    fn add(&mut self, indexed: &Indexed<'a>, specifier: &Specifier<'a>) -> Result<(), BoardFault>
        ensures { drawn_seen self.new result ≡ added (nodes_of indexed.now.tree) (drawn self.old) (specified indexed.now.tree specifier.now) }
    {
        let end = self.end(indexed, specifier)?;
        self.note(&end);
        match self.number_of(specifier.device.place) {
            Some(k) => {
                self.cascade(k, end.route.spot);
                Ok(())
            }
            None => self.add_route(&end),
        }
    }

    // The number of the controller with this place.
    fn number_of(&self, node: Place) -> Option<usize>
        ensures { result ≡ controller_at node.0 (drawn self.now).controllers }
    {
        first_match(self.controllers.as_slice(), &node)
    }

    // The controller of this number.
    fn controller(&self, k: usize) -> Option<Controller<'a>>
        ensures { made_option result ≡ slice_get (drawn self.now).controllers k }
    {
        self.controllers.as_slice().get(k).copied()
    }

    // Where a specifier ends. A route ends at a node with `interrupt-controller`, and each of these is in the table.
    fn end(&self, indexed: &Indexed<'a>, specifier: &Specifier<'a>) -> Result<End, BoardFault>
        ensures { end_seen result ≡ end_of (nodes_of indexed.now.tree) (drawn self.now).controllers (specified indexed.now.tree specifier.now) }
    {
        let found = route(indexed, specifier)?;
        let missing = RouteFault::NoEnd(At::missing(found.controller.place));
        let k = self.number_of(found.controller.place).ok_or(missing)?;
        let controller = self.controller(k).ok_or(missing)?;
        let holder = At::new(specifier.device.place, specifier.property);
        let input = controller.kind.input(&found.cells);
        let input = input.ok_or(BoardFault::Input(holder))?;
        let spot = Spot {
            controller: k,
            input: input.number,
        };
        Ok(End {
            route: Route {
                device: found.device,
                index: found.index,
                hops: found.hops,
                spot,
                sense: input.sense,
            },
            holder,
        })
    }

    // Notes a specifier, if it is the first that ends where one before it does.
    fn note(&mut self, end: &End)
        ensures { drawn self.new ≡ with_noted (ended_now end.now) (drawn self.old) }
    {
        if self.second.is_none() && self.is_taken(end.route.spot) {
            self.second = Some(end.holder);
        }
    }

    // Whether a specifier before ends at this input.
    fn is_taken(&self, spot: Spot) -> bool
        ensures { result ≡ taken spot (drawn self.now) }
    {
        self.is_routed(spot) || self.is_cascaded(spot)
    }

    // Whether a route ends at this input.
    fn is_routed(&self, spot: Spot) -> bool
        ensures { result ≡ routed_to spot (drawn self.now).routes }
    {
        first_match(self.routes.as_slice(), &spot).is_some()
    }

    // Whether a controller is cascaded at this input.
    fn is_cascaded(&self, spot: Spot) -> bool
        ensures { result ≡ cascaded_at spot (drawn self.now).controllers }
    {
        self.controllers
            .as_slice()
            .iter()
            .any(|c| c.parent.is_at(spot))
    }

    // A controller's specifier ends at this input.
    fn cascade(&mut self, k: usize, spot: Spot)
        ensures { drawn self.new ≡ with_cascaded k spot (drawn self.old) }
    {
        if let Some(controller) = self.controllers.get_mut(k) {
            controller.parent = controller.parent.with(spot);
        }
    }

    // One route more; 20 for a 257th.
    fn add_route(&mut self, end: &End) -> Result<(), BoardFault>
        ensures { drawn_seen self.new result ≡ with_route (ended_now end.now) (drawn self.old) }
    {
        self.routes
            .try_push(end.route)
            .map_err(|_| BoardFault::Routes(end.holder))
    }
}
