ghost use Rattle.std.specs.Prelude.{◌≡◌, Bool};
ghost use Rattle.search.specs.First.{FirstFit, first};

// A record that is found by a key of its own kind.
pub trait Keyed {
    type Key;

    ghost fit: { Self → Self.Key → Bool };

    // Whether the record is one that the key asks for.
    fn fits(&self, key: &Self::Key) -> bool
        ensures { result ≡ fit self.now key.now };
}

// The index of the first record that fits the key; none exactly when none fits.
pub fn first_match<R: Keyed>(records: &[R], key: &R::Key) -> Option<usize>
    ensures is { result ≡ first (λ x. R.Keyed.fit x key.now) records.now }
    ensures fits { FirstFit (λ x. R.Keyed.fit x key.now) records.now result }
{
    // A loop and no `position`: with it both promises are answered in the proof, and a wrong body is refused there and not here.
    for (i, record) in records.iter().enumerate() {
        if record.fits(key) {
            return Some(i);
        }
    }
    None
}
