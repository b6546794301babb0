//! A blob with a good header, its tokens one at a time or in a row, and the cursor of a walk over them.
//! Each call equals a definition in specs/ over the blob's bytes, whatever bytes it is given, and reads nothing past
//! the total size. `Blob` is a blob with a good header; whether its tokens form one tree is asked by the crate `rules`.
#![tactic(auto)]

pub mod blob;
pub mod cursor;
pub mod token;
pub mod tokens;
