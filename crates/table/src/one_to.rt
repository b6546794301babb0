ghost use Rattle.std.specs.Prelude.{◌≤◌};

// A number from 1 to MOST. The type says no more than the range: two names for one MOST are one type.
#[derive(Clone, Copy, PartialEq, Eq, Debug)]
pub struct OneTo<const MOST: usize> {
    // A usize, as MOST is: in a smaller type the numbers from 1 to a larger MOST would not all stand.
    number: usize,
    ghost least: { 1 ≤ number },
    ghost most: { number ≤ MOST },
}

// The words of clauses are imported in each `impl`, since their files name the struct.
impl<const MOST: usize> OneTo<MOST> {
    ghost use Rattle.std.specs.Prelude.{◌≡◌};
    ghost use Rattle.table.specs.Ranges.{in_range, number_seen};

    // The number; none below 1 and above MOST.
    pub fn new(number: usize) -> Option<OneTo<MOST>>
        ensures { number_seen result ≡ in_range MOST number }
    {
        if 1 <= number && number <= MOST {
            Some(OneTo { number })
        } else {
            None
        }
    }
}

impl<const MOST: usize> From<OneTo<MOST>> for usize {
    ghost use Rattle.std.specs.Prelude.{◌≡◌};

    ghost from_gives = { λ x number. number ≡ x.number };

    fn from(x: OneTo<MOST>) -> usize {
        x.number
    }
}
