ghost use Rattle.std.specs.Prelude.{◌≡◌, ◌+◌, ◌<◌, ◌≤◌, [], ◌∷◌, ◌++◌};

use faults::place::Place;

// A row that was taken: the place of its nexus, and its number.
#[derive(Clone, Copy, PartialEq, Eq, Debug)]
pub struct Hop {
    pub nexus: Place,
    pub row: usize,
}

// The rows taken by a walk, in order, at most eight. An array and a count, since hops are `Copy`, which no `ArrayVec` is.
#[derive(Clone, Copy, PartialEq, Eq, Debug)]
pub struct Hops {
    list: [Hop; 8],
    count: usize,
    ghost few: { count ≤ 8 },
}

impl Hops {
    ghost use Rattle.walk.specs.Hops.{hop_at, hops_of};

    // No row is taken yet.
    pub fn none() -> Hops
        ensures list { hops_of result ≡ [] }
        ensures count { result.count ≡ 0 }
    {
        let unused = Hop {
            nexus: Place(0),
            row: 0,
        };
        Hops {
            list: [unused; 8],
            count: 0,
        }
    }

    // The hop at an index; none past the last.
    pub fn hop(&self, i: usize) -> Option<Hop>
        ensures { result ≡ hop_at i (hops_of self.now) }
    {
        self.as_slice().get(i).copied()
    }

    // The hops in order.
    pub fn as_slice(&self) -> &[Hop]
        ensures { result.now ≡ hops_of self.now }
    {
        &self.list[..self.count]
    }

    // One row more.
    pub(crate) fn with(mut self, hop: Hop) -> Hops
        requires { self.count < 8 }
        ensures list { hops_of result ≡ hops_of self ++ hop ∷ [] }
        ensures count { result.count ≡ self.count + 1 }
    {
        self.list[self.count] = hop;
        self.count += 1;
        self
    }
}
