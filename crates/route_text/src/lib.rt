//! Where a specifier ends, and the text of a route, as programs print it: each nexus that it passes with the row taken there, the
//! controller where it ends, and the cells that arrive there. It is a part of the programs, and allocates. The definitions are in
//! specs/.
#![tactic(auto)]

ghost use Rattle.std.specs.Prelude.{◌≡◌, IfOk, string_bytes};
ghost use Rattle.cell_list.specs.CellLists.{cells_in};
ghost use Rattle.specifiers.specs.Lists.{specified_in};
ghost use Rattle.tree.specs.Reads.{nodes_of};
ghost use Rattle.walk.specs.Hops.{hops_of};
ghost use Rattle.walk.specs.Walks.{route_in};
ghost use Rattle.route_text.specs.Ends.{end_of};
ghost use Rattle.route_text.specs.Texts.{route_text, via_text};

use faults::fault::RouteFault;
use indexed::Indexed;
use routing::route;
use specifiers::Specifier;
use std::alloc::{AllocError, Global};
use std::fmt::Write;
use walk::hops::Hops;
use walk::steps::Route;

// ` via N:R N:R ends C cells C C`; ` via` and its list stand only where a nexus is passed.
pub fn route_text(heap: Global, route: &Route<'_>) -> Result<String, AllocError>
    ensures { IfOk result (λ text. string_bytes text ≡ route_text (hops_of route.now.hops) route.now.controller.place.0 (cells_in route.now.cells)) }
{
    let mut text = via_text(heap, &route.hops)?;
    let controller = route.controller.place;
    write!(text, " ends {controller} cells")?;
    for cell in route.cells.iter() {
        write!(text, " {cell}")?;
    }
    Ok(text)
}

// Each nexus that is passed with the row taken there.
fn via_text(heap: Global, hops: &Hops) -> Result<String, AllocError>
    ensures { IfOk result (λ text. string_bytes text ≡ via_text (hops_of hops.now)) }
{
    let mut text = String::new(heap);
    if !hops.as_slice().is_empty() {
        text.push_str(" via")?;
    }
    for hop in hops.as_slice() {
        write!(text, " {}:{}", hop.nexus, hop.row)?;
    }
    Ok(text)
}

// Where an item of a node's specifiers ends: the fault of one that could not be cut is its own.
pub fn route_end<'a>(
    indexed: &Indexed<'a>,
    specifier: Result<Specifier<'a>, RouteFault>,
) -> Result<Route<'a>, RouteFault>
    ensures { route_in indexed.now.tree result ≡ end_of (nodes_of indexed.now.tree) (specified_in indexed.now.tree specifier.entry) }
{
    route(indexed, &specifier?)
}
