ghost use Rattle.std.specs.Prelude.{◌≡◌, IfOk};
ghost use Rattle.fdt.specs.Tokens.{word};
ghost use Rattle.rules.specs.Rules.{admitted, walk, walked};
ghost use Rattle.rules.specs.Trees.{Accepts};

use faults::fault::TokenFault;
use faults::place::Place;
use fdt::blob::Blob;
use fdt::cursor::Cursor;
use fdt::token::Token;

// What may come next: the root, properties or subnodes, subnodes alone, or the end.
#[derive(Clone, Copy, PartialEq, Eq, Debug)]
pub enum Stage {
    Start,
    Properties,
    Subnodes,
    Finished,
}

// A walk over all tokens.
#[derive(Clone, Copy, PartialEq, Eq, Debug)]
pub struct Walk {
    pub cursor: Cursor,
    pub stage: Stage,
}

impl Walk {
    // Past a token that is next, and that leaves the walk at this stage and depth.
    fn past(next: Place, depth: usize, stage: Stage) -> Walk
        ensures { result ≡ walk next.0 depth stage }
    {
        Walk {
            cursor: Cursor { place: next, depth },
            stage,
        }
    }

    // The walk past a token, where the structure block ends at `end`; 6 for a token that may not stand here, 7 for a
    // node deeper than 16.
    fn admit(self, token: Token<'_>, next: Place, end: usize) -> Result<Walk, TokenFault>
        ensures is { result ≡ admitted end self (word token.entry) next.0 }
        ensures goes { IfOk result (λ w. w.cursor.place ≡ next) }
    {
        let Cursor { place, depth } = self.cursor;
        match (token, self.stage) {
            (Token::Open(name), Stage::Start) if name.bytes.is_empty() => {
                Ok(Walk::past(next, 1, Stage::Properties))
            }
            (Token::Open(_), Stage::Properties | Stage::Subnodes) if depth >= 16 => {
                Err(TokenFault::Depth(place))
            }
            (Token::Open(_), Stage::Properties | Stage::Subnodes) => {
                Ok(Walk::past(next, depth + 1, Stage::Properties))
            }
            (Token::Property(_, _), Stage::Properties) => {
                Ok(Walk::past(next, depth, Stage::Properties))
            }
            (Token::Close, _) if depth == 1 => Ok(Walk::past(next, 0, Stage::Finished)),
            (Token::Close, _) if depth > 1 => Ok(Walk::past(next, depth - 1, Stage::Subnodes)),
            (Token::Nothing, stage) => Ok(Walk::past(next, depth, stage)),
            (Token::End, Stage::Finished) if next == Place(end) => {
                Ok(Walk::past(next, depth, Stage::Finished))
            }
            _ => Err(TokenFault::Rule(place)),
        }
    }
}

// Walks all tokens of the structure block: 5, 6 or 7 at the first token that is refused. The walk's own cursor says where the
// next token stands; a `for` over the tokens would need an answer for tokens that are over before an end token, which cannot be.
#[tactic(auto, using(crate::proofs::Trees::accepts))]
pub fn walk_tokens(blob: &Blob<'_>) -> Result<Walk, TokenFault>
    ensures is { result ≡ walked blob.now.bytes.now blob.now.header }
    ensures exactly { Accepts blob.now.bytes.now blob.now.header result }
{
    let end = blob.end();
    let mut at = Walk::past(blob.start(), 0, Stage::Start);
    loop {
        let step = blob.token_at(at.cursor.place)?;
        at = at.admit(step.token, step.next, end)?;
        if matches!(step.token, Token::End) {
            return Ok(at);
        }
    }
}
