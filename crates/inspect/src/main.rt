//! Prints what is in the devicetree blobs that the arguments name: the nodes in blob order, how much there is, where each
//! interrupt ends, and the board that the tree makes; or the refusal. A thin program over `tree`, `specifiers`, `routing` and `plan`.
#![tactic(auto)]

use std::io;

mod board_lines;
mod files;
mod node_lines;
mod routes;

use files::list_files;

fn main(rt: HostRuntime) -> io::Result<()> {
    list_files(&rt)
}
