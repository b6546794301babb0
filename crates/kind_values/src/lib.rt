//! The properties by which the kind and the width of a controller are known, checked when they are read: `compatible`,
//! `riscv,ndev` and `factory,inputs`. A wrong length or value is 8, with the places of the node and the property.
//! The definitions are in specs/Kinds.antt.
#![tactic(auto)]

ghost use Rattle.std.specs.Prelude.{◌≡◌};
ghost use Rattle.kind_values.specs.Kinds.{compatible, inputs, ndev, strings_by, strings_in, strings_option};
ghost use Rattle.properties.specs.Properties.{owned};
ghost use Rattle.tree.specs.Reads.{entry_in};

use faults::fault::RouteFault;
use faults::place::{At, Place};
use properties::Property;
use tree::node::Node;
use tree::tree::Tree;
pub use values::property::Strings;
use values::property::{Cell, cell_in};

// The strings of a property: empty, or ended by a zero byte; 8 where they are not.
pub fn strings_of<'a>(node: Place, property: &Property<'a>) -> Result<Strings<'a>, RouteFault>
    ensures { strings_in result ≡ strings_by node.0 (owned property.now) }
{
    match property.value.bytes.last() {
        None | Some(0) => Ok(Strings {
            property: property.place,
            value: property.value.bytes,
        }),
        Some(_) => Err(RouteFault::Value(At::new(node, property.place))),
    }
}

// `compatible` of a node; 8 where a string of it is not ended. Like `cell_in` of `values`, and apart for the same reason.
pub fn compatible<'a>(tree: &Tree<'a>, node: &Node<'a>) -> Result<Option<Strings<'a>>, RouteFault>
    ensures { strings_option result ≡ compatible (entry_in tree.now node.now) }
{
    let Some(property) = tree.property(node, b"compatible")? else {
        return Ok(None);
    };
    Ok(Some(strings_of(node.place, &property)?))
}

// `riscv,ndev` of a node, 1 to 64; 8 where it is not.
pub fn ndev<'a>(tree: &Tree<'a>, node: &Node<'a>) -> Result<Option<Cell>, RouteFault>
    ensures { result ≡ ndev (entry_in tree.now node.now) }
{
    cell_in(tree, node, b"riscv,ndev", 1..=64)
}

// `factory,inputs` of a node, 1 to 32; 8 where it is not.
pub fn inputs<'a>(tree: &Tree<'a>, node: &Node<'a>) -> Result<Option<Cell>, RouteFault>
    ensures { result ≡ inputs (entry_in tree.now node.now) }
{
    cell_in(tree, node, b"factory,inputs", 1..=32)
}
