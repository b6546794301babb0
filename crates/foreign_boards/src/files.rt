// What is in data/: blobs, and lists of calls.
use any_controller::any::AnyController;
use board_text::events::list_of;
use boards::parts::Parts;
use history::call::Event;
use kind_parts::of_plan::parts_of;
use plan::tree_plan::Plan;
use std::{fs, io};
use tree::tree::Tree;

// The bytes of a tree's blob.
pub fn blob(rt: &HostRuntime, name: &str) -> io::Result<Vec<u8>> {
    let name = format!(in rt.alloc(); "{name}.dtb")?;
    fs::read(rt, name.as_str())
}

// The tree of a blob.
pub fn opened(bytes: &[u8]) -> io::Result<Tree<'_>> {
    Tree::open(bytes).map_err(|_| unread())
}

// The parts that a tree asks for.
pub fn asked_for(
    rt: &HostRuntime,
    name: &str,
) -> io::Result<Parts<AnyController, AnyController, AnyController, AnyController>> {
    let bytes = blob(rt, name)?;
    let tree = opened(bytes.as_slice())?;
    match Plan::of(&tree) {
        Ok(plan) => Ok(parts_of(&plan)),
        Err(_) => Err(unread()),
    }
}

// The calls of a list. Each stands as an event that was done, until a board writes its answer.
pub fn events(rt: &HostRuntime, name: &str) -> io::Result<Vec<Event>> {
    let name = format!(in rt.alloc(); "{name}.events")?;
    let bytes = fs::read(rt, name.as_str())?;
    Ok(list_of(rt.alloc(), bytes.as_slice())?)
}

// A file that is not as it is to be.
fn unread() -> io::Error {
    io::Error::from(io::ErrorKind::InvalidData)
}
