// What an index reads of a tree.
ghost use Rattle.std.specs.Prelude.{◌≡◌, ◌+◌, ◌-◌, ◌≤◌, Some, IfSome};
ghost use Rattle.fdt.specs.Tokens.{ending};
ghost use Rattle.tree.specs.Phandles.{with_phandle};
ghost use Rattle.tree.specs.Reads.{entry_in, node_in};
ghost use Rattle.values.specs.Counts.{counts_of};
ghost use Rattle.indexed.specs.Handles.{handle_of};
ghost use Rattle.indexed.specs.Rows.{Keeps, Tells, few, good, nodes_past, rows_of};
ghost use Rattle.indexed.specs.declared.row.Few.{Few as FewCounts};

use crate::row::{Few, Row};
use faults::fault::TokenFault;
use fdt::cursor::Cursor;
use tree::node::Node;
use tree::tree::Tree;
use tree::tree::phandles::one_cell;
use values::counts::counts_of;

// A node that was taken in: its row, if it has one, and the cursor past its open token.
#[derive(Clone, Copy, PartialEq, Eq, Debug)]
pub(crate) struct Step {
    pub(crate) row: Option<Row>,
    pub(crate) rest: Cursor,
}

// The phandle of a node, none where it has none or one that is not one cell.
fn handle_of<'a>(tree: &Tree<'a>, node: &Node<'a>) -> Result<Option<u32>, TokenFault>
    ensures { result ≡ handle_of (entry_in tree.now node.now) }
{
    let Some(property) = tree.property(node, b"phandle")? else {
        return Ok(None);
    };
    Ok(one_cell(node.place, &property).ok())
}

// Both counts of a node, none where one of them is in fault.
fn few_of<'a>(tree: &Tree<'a>, node: &Node<'a>) -> Option<Few>
    ensures { IfSome result (λ f. good (counts_of (entry_in tree.now node.now)) ≡ Some (few f)) }
{
    let counts = counts_of(tree, node).ok()?;
    Some(Few {
        address: u8::try_from(counts.address).ok()?,
        interrupt: u8::try_from(counts.interrupt).ok()?,
    })
}

// The row of a node with this phandle; none where its numbers have no room in a row.
fn row_of<'a>(tree: &Tree<'a>, node: &Node<'a>, phandle: u32) -> Option<Row>
    ensures phandle { IfSome result (λ r. r.phandle ≡ phandle) }
    ensures place { IfSome result (λ r. r.place ≡ node.now.place.0) }
    ensures depth { IfSome result (λ r. r.depth ≡ node.now.body.depth - 1) }
    ensures counts { IfSome result (λ r. (f : FewCounts) → r.counts ≡ Some f → good (counts_of (entry_in tree.now node.now)) ≡ Some (few f)) }
{
    Some(Row {
        phandle,
        place: u32::try_from(node.place.0).ok()?,
        depth: u8::try_from(node.body.depth.checked_sub(1)?).ok()?,
        counts: few_of(tree, node),
    })
}

// The first node from a cursor on; none where there is none, where it cannot be read, or where its numbers have no room in a row.
pub(crate) fn step_from<'a>(tree: &Tree<'a>, from: Cursor) -> Option<Step>
    ensures tells { IfSome result (λ s. Tells tree.now (nodes_past tree.now from) (rows_of s.row) s.rest) }
    ensures keeps { IfSome result (λ s. Keeps tree.now (rows_of s.row)) }
    ensures goes { IfSome result (λ s. (from.place.0 + 4 ≤ s.rest.place.0) × (from.place.0 + 4 ≤ ending tree.now.blob.header)) }
{
    let Ok(Some(node)) = tree.next_node(from) else {
        return None;
    };
    let row = match handle_of(tree, &node) {
        Ok(Some(phandle)) => Some(row_of(tree, &node, phandle)?),
        Ok(None) => None,
        Err(_) => return None,
    };
    Some(Step {
        row,
        rest: node.body,
    })
}

// The first node with this phandle, from a cursor on.
pub(crate) fn search_from<'a>(
    tree: &Tree<'a>,
    from: Cursor,
    phandle: u32,
) -> Result<Option<Node<'a>>, TokenFault>
    ensures { node_in tree.now result ≡ with_phandle phandle (nodes_past tree.now from) }
{
    let mut at = from;
    while let Some(node) = tree.next_node(at)? {
        if handle_of(tree, &node)? == Some(phandle) {
            return Ok(Some(node));
        }
        at = node.body;
    }
    Ok(None)
}
