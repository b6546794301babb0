//! An opened tree with tables: of its phandles and of where its nodes stand, so that the node of a phandle, both its counts and the parent of a
//! node are found without going over the tree; and of where the properties of long nodes stand, so that what is asked for where cells
//! arrive is found without going over them. Each call equals the search over the nodes, or over the node's properties. The definitions are in specs/.
#![tactic(auto)]

ghost use Rattle.std.specs.Prelude.{◌≡◌, ◌≤◌, IfOk, IfSome, Some, codes};
ghost use Rattle.properties.specs.Properties.{property_seen, sought};
ghost use Rattle.tree.specs.Phandles.{with_phandle};
ghost use Rattle.tree.specs.Reads.{entry_in, node_in, nodes_of, tokens_in};
ghost use Rattle.fdt.specs.Tokens.{after};
ghost use Rattle.nodes.specs.Finding.{parent_of};
ghost use Rattle.values.specs.Counts.{counts_of, interrupt_cells};
ghost use Rattle.values.specs.Values.{cells_within, found_seen, has, node_of, place_in};
ghost use Rattle.indexed.specs.Rows.{Keeps, Tells, by_row, counts_with, nodes_past};
ghost use Rattle.indexed.specs.Single.{Keeps-prop, Spotted-prop, Tells-prop, Told-prop};
ghost use Rattle.indexed.specs.Spots.{Spotted};
ghost use Rattle.indexed.specs.Starts.{Told, begun, needs_at, needs_by};

use faults::fault::{RouteFault, TokenFault};
use faults::place::{At, Place};
use fdt::cursor::Cursor;
use hints::Hints;
use nodes::parent;
use properties::Property;
use reading::{search_from, step_from};
use row::{Few, Row};
use rows::Rows;
use spots::Spots;
use starts::{Far, Starts};
use tree::node::Node;
use tree::tree::Tree;
use values::counts::{Counts, address_cells, both, counts_of, interrupt_cells};
use values::property::{Cells, cells_in, has};

mod hints;
mod reading;
mod row;
mod rows;
mod spots;
mod starts;

// A tree, a row for each phandle of a node and the cursor past the nodes that were taken in, a row for each node whose properties are long,
// the spots of all nodes, and hints for the rows of long maps. Making one never fails: a table ends before a node that cannot be read or has no
// room, and what has no row is sought in the nodes from there on, in all nodes, or in all of a node's properties.
#[derive(Drop)]
pub struct Indexed<'a> {
    pub tree: Tree<'a>,
    rows: Rows,
    rest: Cursor,
    far: Far,
    spots: Spots,
    hints: Hints,
    ghost tells: { Tells tree (nodes_of tree) rows.list.items rest } by { Tells-prop tree (nodes_of tree) rows.list.items rest },
    ghost keeps: { Keeps tree rows.list.items } by { Keeps-prop tree rows.list.items },
    ghost told: { Told tree far.list.items } by { Told-prop tree far.list.items },
    ghost spotted: { Spotted tree spots.list.items spots.whole } by { Spotted-prop tree spots.list.items spots.whole },
}

impl<'a> Indexed<'a> {
    // The tree with its tables.
    pub fn of(tree: &Tree<'a>) -> Indexed<'a>
        ensures { result.tree ≡ tree.now }
    {
        let spots = Spots::of(tree);
        let far = Far::of(tree, &spots);
        let mut rows = Rows::new();
        let mut rest = tree.start();
        while let Some(step) = step_from(tree, rest) {
            if !rows.add(step.row) {
                break;
            }
            rest = step.rest;
        }
        let hints = Hints::of(tree, &rows, &far);
        Indexed {
            tree: *tree,
            rows,
            rest,
            far,
            spots,
            hints,
        }
    }

    // The node of a row, or the first with the phandle after those that were taken in.
    fn node_by(&self, phandle: u32, row: Option<Row>) -> Result<Option<Node<'a>>, TokenFault>
        ensures { node_in self.now.tree result ≡ by_row self.now.tree (with_phandle phandle (nodes_past self.now.tree self.now.rest)) row }
    {
        match row {
            Some(row) => self.tree.next_node(row.cursor()),
            None => search_from(&self.tree, self.rest, phandle),
        }
    }

    // The node with a phandle, the first in blob order; 12 with the places of the node and the property that hold the phandle.
    pub fn node_of(&self, phandle: u32, holder: At) -> Result<Node<'a>, RouteFault>
        ensures { place_in self.now.tree result ≡ node_of (nodes_of self.now.tree) phandle holder }
    {
        self.node_by(phandle, self.rows.with(phandle))?
            .ok_or(RouteFault::NoNode(holder))
    }

    // Both counts of the node with a phandle: 12, then 8, 15 and 16 for the counts. `row` tells where to look first: it is the place of
    // the map that names the phandle, and four bytes for each of its cells before the row.
    pub fn counts_of(&self, phandle: u32, holder: At, row: Place) -> Result<Counts, RouteFault>
        ensures is { result ≡ after (node_of (nodes_of self.now.tree) phandle holder) counts_of }
        ensures few { IfOk result (λ c. (c.address ≤ 255) × (c.interrupt ≤ 255)) }
    {
        match self.hinted(phandle, row) {
            Some(few) => Ok(few.counts()),
            None => self.sought_counts(phandle, holder),
        }
    }

    // The counts of a phandle by the hint for a row of a map; none where it is no row of this phandle.
    fn hinted(&self, phandle: u32, row: Place) -> Option<Few>
        ensures { IfSome result (λ f. counts_with phandle self.now.rows.list.items ≡ Some f) }
    {
        let hint = self.hints.at(row)?;
        if !self.rows.is_at(hint.index.into(), phandle, hint.few) {
            return None;
        }
        Some(hint.few)
    }

    // Both counts of the node with a phandle, by its row or from the node. It is no part of the loop over a map's rows, where hints serve.
    #[cold]
    #[inline(never)]
    fn sought_counts(&self, phandle: u32, holder: At) -> Result<Counts, RouteFault>
        ensures is { result ≡ after (node_of (nodes_of self.now.tree) phandle holder) counts_of }
        ensures few { IfOk result (λ c. (c.address ≤ 255) × (c.interrupt ≤ 255)) }
    {
        if let Some(row) = self.rows.with(phandle)
            && let Some(few) = row.counts
        {
            return Ok(few.counts());
        }
        let node = self.node_of(phandle, holder)?;
        counts_of(&self.tree, &node)
    }

    // The node that a node is a subnode of; none for the root.
    pub fn parent(&self, node: &Node<'a>) -> Result<Option<Node<'a>>, TokenFault>
        ensures { node_in self.now.tree result ≡ parent_of node.now.place.0 node.now.body.depth (nodes_of self.now.tree) }
    {
        if !self.spots.whole {
            return parent(&self.tree, node);
        }
        let Some(spot) = self.spots.above(node.place.0, node.body.depth) else {
            return Ok(None);
        };
        match self.tree.next_node(spot.cursor()) {
            Ok(Some(above)) if spot.is_of(&above) => Ok(Some(above)),
            Ok(_) | Err(_) => parent(&self.tree, node),
        }
    }

    // The row of a node, if its properties are long.
    fn starts(&self, node: &Node<'a>) -> Option<Starts>
        ensures { IfSome result (λ s. needs_by self.now.tree s ≡ needs_at self.now.tree node.now.body.place.0) }
    {
        self.far.with(node.body.place)
    }

    // Whether a node is a controller.
    pub fn is_controller(&self, node: &Node<'a>) -> Result<bool, RouteFault>
        ensures { result ≡ has (codes "interrupt-controller") (entry_in self.now.tree node.now) }
    {
        let start = self.starts(node).map(|starts| starts.controller);
        has(&self.tree, &begun(node, start), b"interrupt-controller")
    }

    // The map of a node, if it is a nexus.
    pub fn map(&self, node: &Node<'a>) -> Result<Option<Property<'a>>, TokenFault>
        ensures { property_seen result ≡ sought (codes "interrupt-map") (tokens_in self.now.tree node.now.body.place.0) }
    {
        let start = self.starts(node).map(|starts| starts.map);
        self.tree.property(&begun(node, start), b"interrupt-map")
    }

    // The mask of a nexus, as whole cells; 8 for its length.
    pub fn mask(&self, node: &Node<'a>) -> Result<Option<Cells<'a>>, RouteFault>
        ensures { found_seen result ≡ cells_within (codes "interrupt-map-mask") (entry_in self.now.tree node.now) }
    {
        let start = self.starts(node).map(|starts| starts.mask);
        cells_in(&self.tree, &begun(node, start), b"interrupt-map-mask")
    }

    // The `reg` of a device, as whole cells; 8 for its length.
    pub fn reg(&self, node: &Node<'a>) -> Result<Option<Cells<'a>>, RouteFault>
        ensures { found_seen result ≡ cells_within (codes "reg") (entry_in self.now.tree node.now) }
    {
        let start = self.starts(node).map(|starts| starts.reg);
        cells_in(&self.tree, &begun(node, start), b"reg")
    }

    // `#interrupt-cells` of a node, 1 to 4; 8 for a wrong one, 15 where it is missing.
    pub fn interrupt_cells(&self, node: &Node<'a>) -> Result<usize, RouteFault>
        ensures is { result ≡ interrupt_cells (entry_in self.now.tree node.now) }
        ensures few { IfOk result (λ n. n ≤ 4) }
    {
        let start = self.starts(node).map(|starts| starts.interrupt);
        interrupt_cells(&self.tree, &begun(node, start))
    }

    // Both counts of a node where cells arrive; of two faults the sooner.
    pub fn counts_at(&self, node: &Node<'a>) -> Result<Counts, RouteFault>
        ensures is { result ≡ counts_of (entry_in self.now.tree node.now) }
        ensures few { IfOk result (λ c. (c.address ≤ 4) × (c.interrupt ≤ 4)) }
    {
        let start = self.starts(node).map(|starts| starts.address);
        let address = address_cells(&self.tree, &begun(node, start));
        both(address, self.interrupt_cells(node))
    }
}

// A node, read from this place on, or from its body's where there is none.
fn begun<'a>(node: &Node<'a>, start: Option<u32>) -> Node<'a>
    ensures place { result.place ≡ node.now.place }
    ensures body { result.body.place.0 ≡ begun node.now.body.place.0 start }
{
    let Some(start) = start else {
        return *node;
    };
    Node {
        body: Cursor {
            place: Place(start as usize),
            ..node.body
        },
        ..*node
    }
}
