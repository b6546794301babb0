ghost use Rattle.std.specs.Prelude.{◌≡◌, ◌==◌, ◌||◌, ◌∷◌, ◌++◌, [], cond, length};
ghost use Rattle.tree.specs.Reads.{entry_in, nodes_of};
ghost use Rattle.plan.specs.Controllers.{controller_in, controllers_of, finish, made};
ghost use Rattle.plan.specs.Seen.{controller_seen, controllers_in, controllers_seen};

use crate::placed::{Controller, Parent};
use arrayvec::ArrayVec;
use board_faults::BoardFault;
use kinds::reading::kind_of;
use tree::node::Node;
use tree::tree::Tree;
use values::property::has;

// The first four controllers of a tree, and whether there are more.
#[derive(Drop)]
struct FirstFour<'a> {
    controllers: ArrayVec<Controller<'a>, 4>,
    more: bool,
}

// The controllers of a tree in blob order: the first fault of one, 8 or 10; 11 where there is none, or more than four.
#[tactic(auto, using(crate::proofs::Finding::one_added))]
pub(crate) fn controllers<'a>(tree: &Tree<'a>) -> Result<ArrayVec<Controller<'a>, 4>, BoardFault>
    ensures { controllers_seen result ≡ controllers_of (nodes_of tree.now) }
{
    let mut found = FirstFour {
        controllers: ArrayVec::new(),
        more: false,
    };
    for node in tree.nodes() {
        if let Some(controller) = controller_in(tree, &node?)? {
            found.add(controller);
        }
    }
    found.one_to_four()
}

// A node with `interrupt-controller`, as a controller.
fn controller_in<'a>(tree: &Tree<'a>, node: &Node<'a>) -> Result<Option<Controller<'a>>, BoardFault>
    ensures { controller_seen result ≡ controller_in (entry_in tree.now node.now) }
{
    if !has(tree, node, b"interrupt-controller")? {
        return Ok(None);
    }
    Ok(Some(Controller {
        node: node.place,
        kind: kind_of(tree, node)?,
        parent: Parent::Root,
        first_line: None,
    }))
}

impl<'a> FirstFour<'a> {
    // One controller more. A fifth is not kept, but the nodes after it are read all the same.
    fn add(&mut self, controller: Controller<'a>)
        ensures first { controllers_in self.new.controllers ≡ cond (length (controllers_in self.old.controllers) == 4) (controllers_in self.old.controllers) (controllers_in self.old.controllers ++ made controller.entry ∷ []) }
        ensures more { self.new.more ≡ (length (controllers_in self.old.controllers) == 4 || self.old.more) }
    {
        if self.controllers.try_push(controller).is_err() {
            self.more = true;
        }
    }

    // One to four controllers; 11.
    fn one_to_four(self) -> Result<ArrayVec<Controller<'a>, 4>, BoardFault>
        ensures { controllers_seen result ≡ finish self.entry.more (controllers_in self.entry.controllers) [] }
    {
        if self.more || self.controllers.is_empty() {
            return Err(BoardFault::Controllers);
        }
        Ok(self.controllers)
    }
}
