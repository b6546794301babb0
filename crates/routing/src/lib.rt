//! Where a specifier ends: the route to a controller's node, or the fault with which its walk stops.
//! specs/Leads.antt says in the subject's words what leads where, and the answer is a route exactly if the specifier leads to it.
#![tactic(auto)]

ghost use Rattle.std.specs.Prelude.{◌≡◌};
ghost use Rattle.routing.specs.Leads.{Answers};
ghost use Rattle.specifiers.specs.Specifiers.{specified};
ghost use Rattle.tree.specs.Reads.{nodes_of};
ghost use Rattle.walk.specs.Walks.{route_in, route_of};

use faults::fault::RouteFault;
use indexed::Indexed;
use specifiers::Specifier;
use walk::steps::{Route, walk_from};

// The route of a specifier, or the first fault of its walk: 15 where it arrives at neither a controller nor a nexus; at a nexus 8,
// 15 and 16 for its counts, 8 and 16 for the device's `reg` and for the mask, 8 for the map; for each row up to the one that is
// taken 16, 12, and 8, 15 and 16 for the counts of its parent; 17 where no row matches, and 18 for a ninth row.
#[tactic(auto, using(crate::proofs::Routes::answers))]
pub fn route<'a>(indexed: &Indexed<'a>, specifier: &Specifier<'a>) -> Result<Route<'a>, RouteFault>
    ensures is { route_in indexed.now.tree result ≡ route_of (nodes_of indexed.now.tree) (specified indexed.now.tree specifier.now) }
    ensures leads { Answers (nodes_of indexed.now.tree) (specified indexed.now.tree specifier.now) (route_in indexed.now.tree result) }
{
    walk_from(indexed, specifier, &specifier.parent)
}
