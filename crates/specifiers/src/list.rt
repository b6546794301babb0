ghost use Rattle.std.specs.Prelude.{◌≡◌};
ghost use Rattle.std.specs.Iterator.{YieldsFirstBy, item_count};
ghost use Rattle.specifiers.specs.Cuts.{specifiers_of as all_specifiers};
ghost use Rattle.specifiers.specs.Lists.{list_left, specified_in, tree_of};
ghost use Rattle.tree.specs.Reads.{entry_in, nodes_of};

use crate::{Specifier, Specifiers, next_specifier, specifiers_of};
use faults::fault::RouteFault;
use indexed::Indexed;
use std::mem;
use tree::node::Node;

// The specifiers of a device that are left, in order; a fault is the last item. What is left is what is not cut yet, or the fault.
#[derive(Drop)]
pub struct SpecifierList<'t, 'a> {
    indexed: &'t Indexed<'a>,
    left: Result<Option<Specifiers<'a>>, RouteFault>,
}

// The specifiers of a device. A fault of its properties or of its interrupt parent is the one item.
pub fn specifiers<'t, 'a>(indexed: &'t Indexed<'a>, device: &Node<'a>) -> SpecifierList<'t, 'a>
    ensures list { list_left result ≡ all_specifiers (nodes_of indexed.now.tree) (entry_in indexed.now.tree device.now) }
    ensures tree { tree_of result ≡ indexed.now.tree }
{
    SpecifierList {
        indexed,
        left: specifiers_of(indexed, device),
    }
}

impl<'a> Iterator for SpecifierList<'_, 'a> {
    type Item = Result<Specifier<'a>, RouteFault>;

    ghost next_gives = { λ s r t. (tree_of t ≡ tree_of s) × YieldsFirstBy (specified_in (tree_of s)) list_left s r t };

    ghost remaining = { item_count list_left };

    fn next(&mut self) -> Option<Result<Specifier<'a>, RouteFault>> {
        match mem::replace(&mut self.left, Ok(None)) {
            Ok(None) => None,
            Ok(Some(from)) => match next_specifier(self.indexed, &from) {
                Ok(None) => None,
                Ok(Some(cut)) => {
                    self.left = Ok(Some(cut.rest));
                    Some(Ok(cut.specifier))
                }
                Err(fault) => Some(Err(fault)),
            },
            Err(fault) => Some(Err(fault)),
        }
    }
}
