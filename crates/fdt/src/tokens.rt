ghost use Rattle.std.specs.Prelude.{◌≡◌};
ghost use Rattle.std.specs.Iterator.{YieldsFirstBy, item_count};
ghost use Rattle.fdt.specs.Left.{item_seen, tokens_left};
ghost use Rattle.fdt.specs.Reads.{tokens_of};

use super::blob::Blob;
use super::token::{Step, Token};
use faults::fault::TokenFault;
use faults::place::Place;

// The tokens from a place on, each with its own place, up to the end token or the first that cannot be read.
#[derive(Drop)]
pub struct Tokens<'a> {
    blob: Blob<'a>,
    place: Option<Place>,
}

impl<'a> Blob<'a> {
    // The tokens from a place on.
    pub fn tokens(&self, place: Place) -> Tokens<'a>
        ensures { tokens_left result ≡ tokens_of self.now place.0 }
    {
        Tokens {
            blob: *self,
            place: Some(place),
        }
    }
}

impl<'a> Iterator for Tokens<'a> {
    type Item = Result<(Place, Step<'a>), TokenFault>;

    ghost next_gives = { YieldsFirstBy item_seen tokens_left };

    ghost remaining = { item_count tokens_left };

    fn next(&mut self) -> Option<Result<(Place, Step<'a>), TokenFault>> {
        let place = self.place.take()?;
        let step = match self.blob.token_at(place) {
            Ok(step) => step,
            Err(fault) => return Some(Err(fault)),
        };
        if !matches!(step.token, Token::End) {
            self.place = Some(step.next);
        }
        Some(Ok((place, step)))
    }
}
