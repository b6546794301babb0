ghost use Rattle.std.specs.Prelude.{◌≡◌, ◌&&◌, ◌==◌};
ghost use Rattle.plan.specs.Seen.{no_route, routed};

use crate::placed::Spot;
use faults::place::Place;
use line::row::Sense;
use search::keyed::Keyed;
use walk::hops::Hops;

// A route: the device's node, the index of the specifier there, each nexus with its row, the controller and the input where it ends, and
// the sense of the line there. Routes are numbered from 0 in blob order.
#[derive(Clone, Copy, PartialEq, Eq, Debug)]
pub struct Route {
    pub device: Place,
    pub index: usize,
    pub hops: Hops,
    pub spot: Spot,
    pub sense: Sense,
}

// A route is found by the controller and the input where it ends.
impl Keyed for Route {
    type Key = Spot;

    ghost fit = { λ r s. r.spot.controller == s.controller && r.spot.input == s.input };

    fn fits(&self, key: &Spot) -> bool {
        self.spot == *key
    }
}

// What a table of routes holds where it has none.
impl Default for Route {
    ghost is_default = { λ r. routed r ≡ no_route };

    fn default() -> Route {
        Route {
            device: Place(0),
            index: 0,
            hops: Hops::none(),
            spot: Spot {
                controller: 0,
                input: 0,
            },
            sense: Sense::Edge,
        }
    }
}
