ghost use Rattle.std.specs.Prelude.{◌≡◌, ℕ, List};
ghost use Rattle.fdt.specs.Blobs.{SameFront};
ghost use Rattle.tree.specs.Opening.{DecidedBy, Opens, ReadsAll, open_of, tree_seen, walked_of, walked_seen};

use faults::fault::{RouteFault, TokenFault};
use fdt::blob::Blob;
use rules::walk::walk_tokens;

pub mod phandles;
pub mod reading;

// A blob that opening accepted. Only `open` makes one.
#[derive(Clone, Copy, PartialEq, Eq, Debug)]
pub struct Tree<'a> {
    blob: Blob<'a>,
}

impl<'a> Tree<'a> {
    // Opens the blob at the front of the bytes: its header (1 to 4), then all tokens from the front (5 to 7), then the
    // phandles in blob order (8 and 9). No padding and no byte past the total size is read.
    pub fn open(bytes: &'a [u8]) -> Result<Tree<'a>, RouteFault>
        ensures is { tree_seen result ≡ open_of bytes.now }
        ensures exactly { Opens bytes.now (tree_seen result) }
        ensures reads { ReadsAll (tree_seen result) }
        ensures decided { DecidedBy bytes.now (tree_seen result) }
        ensures unread { (c : List ℕ) → SameFront bytes.now c → tree_seen result ≡ open_of c }
    {
        let tree = Tree {
            blob: walked(bytes)?,
        };
        tree.check_phandles()?;
        Ok(tree)
    }
}

// A blob with a good header, whose tokens form one tree.
fn walked<'a>(bytes: &'a [u8]) -> Result<Blob<'a>, TokenFault>
    ensures { walked_seen result ≡ walked_of bytes.now }
{
    let blob = Blob::new(bytes)?;
    let _last = walk_tokens(&blob)?;
    Ok(blob)
}
