ghost use Rattle.std.specs.Prelude.{◌≡◌, ◌≤◌, IfOk};
ghost use Rattle.std.specs.Range.{range_inclusive_end, range_inclusive_start};
ghost use Rattle.tree.specs.Reads.{entry_in};
ghost use Rattle.values.specs.Counts.{address_cells, both, count_in, counts_of, interrupt_cells, sooner};

use crate::property::cell_in;
use faults::fault::RouteFault;
use faults::place::At;
use faults::report::Report;
use std::ops::RangeInclusive;
use tree::node::Node;
use tree::tree::Tree;

// How many cells a unit address and a specifier have at a node.
#[derive(Clone, Copy, PartialEq, Eq, Debug)]
pub struct Counts {
    pub address: usize,
    pub interrupt: usize,
}

// `#interrupt-cells` of a node, 1 to 4; 8 for a wrong one, 15 where it is missing.
pub fn interrupt_cells<'a>(tree: &Tree<'a>, node: &Node<'a>) -> Result<usize, RouteFault>
    ensures is { result ≡ interrupt_cells (entry_in tree.now node.now) }
    ensures some { IfOk result (λ n. (1 ≤ n) × (n ≤ 4)) }
{
    let missing = RouteFault::NoEnd(At::missing(node.place));
    count_in(tree, node, b"#interrupt-cells", 1..=4, missing)
}

// `#address-cells` of a node, 0 to 4; 8 for a wrong one, 16 where it is missing.
pub fn address_cells<'a>(tree: &Tree<'a>, node: &Node<'a>) -> Result<usize, RouteFault>
    ensures is { result ≡ address_cells (entry_in tree.now node.now) }
    ensures few { IfOk result (λ n. n ≤ 4) }
{
    let missing = RouteFault::Row(At::missing(node.place));
    count_in(tree, node, b"#address-cells", 0..=4, missing)
}

// The count of this name at a node, in the range; 8 for a wrong one, and the fault `missing` where there is none.
fn count_in<'a>(
    tree: &Tree<'a>,
    node: &Node<'a>,
    name: &[u8],
    range: RangeInclusive<u32>,
    missing: RouteFault,
) -> Result<usize, RouteFault>
    ensures is { result ≡ count_in name.now (range_inclusive_start range) (range_inclusive_end range) missing (entry_in tree.now node.now) }
    ensures within { IfOk result (λ n. (range_inclusive_start range ≤ n) × (n ≤ range_inclusive_end range)) }
{
    let cell = cell_in(tree, node, name, range)?.ok_or(missing)?;
    Ok(cell.value as usize)
}

// Of two faults at one node the one with the smaller number, then the one with the smaller property place.
pub fn sooner(a: RouteFault, b: RouteFault) -> RouteFault
    ensures { result ≡ sooner a b }
{
    let first = Report::from(a);
    let second = Report::from(b);
    if (second.number, second.property) < (first.number, first.property) {
        b
    } else {
        a
    }
}

// Both counts of a node from the readings of each; of two faults the sooner.
pub fn both(
    address: Result<usize, RouteFault>,
    interrupt: Result<usize, RouteFault>,
) -> Result<Counts, RouteFault>
    ensures { result ≡ both address interrupt }
{
    match (address, interrupt) {
        (Ok(address), Ok(interrupt)) => Ok(Counts { address, interrupt }),
        (Err(a), Err(b)) => Err(sooner(a, b)),
        (Err(fault), Ok(_)) | (Ok(_), Err(fault)) => Err(fault),
    }
}

// Both counts of a node; of two faults the sooner.
pub fn counts_of<'a>(tree: &Tree<'a>, node: &Node<'a>) -> Result<Counts, RouteFault>
    ensures is { result ≡ counts_of (entry_in tree.now node.now) }
    ensures few { IfOk result (λ c. (c.address ≤ 4) × (c.interrupt ≤ 4)) }
{
    both(address_cells(tree, node), interrupt_cells(tree, node))
}
