// Iterators over the indices of a coset and of a circle domain (stwo's CosetIterator<CirclePointIndex> and
// CircleDomainIndexIterator). They are passed by value, as they cross the C interface, and a step can be refused: so `next`
// hands back the iterator after it, which Rust's Iterator doesn't.
ghost use Rattle.std.specs.Prelude.{◌≡◌};
ghost use Rattle.fields.specs.Check.{outcome};
ghost use Rattle.domains.specs.Coset.{iterator_of};
ghost use Rattle.domains.specs.Iterator.{check, stepped, next_answer, domain_next_answer};

use crate::coset::checked::CheckedCoset;
use circle::index::{CirclePointIndex, inner as index};
use fields::log_size::inner::two_to;
use fields::refusal::Refusal;

#[derive(Clone, Copy, Debug, PartialEq, Eq)]
pub struct CosetIterator {
    pub cur: CirclePointIndex,
    pub step: CirclePointIndex,
    pub remaining: u64,
}

// Over the indices of the coset.
impl From<CheckedCoset> for CosetIterator {
    ghost from_gives = { λ c it. it ≡ iterator_of c.coset };

    #[tactic(auto, unfolding(crate::specs::Coset::iterator_of))]
    fn from(c: CheckedCoset) -> CosetIterator {
        let c = c.coset;
        CosetIterator {
            cur: c.initial_index,
            step: c.step_size,
            remaining: two_to(c.log_size),
        }
    }
}

impl CosetIterator {
    fn check(self) -> Result<(), Refusal>
        ensures { result ≡ outcome (check self) }
    {
        self.cur.check()?;
        self.step.check()
    }

    // The index, if any remain, and the iterator after it.
    #[tactic(auto, unfolding(crate::specs::Iterator::advanced))]
    fn advance(self) -> (Option<CirclePointIndex>, CosetIterator)
        ensures { result ≡ stepped self }
    {
        if self.remaining == 0 {
            return (None, self);
        }
        let cur = index::add(self.cur, self.step);
        let after = CosetIterator {
            cur,
            step: self.step,
            remaining: self.remaining - 1,
        };
        (Some(self.cur), after)
    }

    pub fn next(self) -> Result<(Option<CirclePointIndex>, CosetIterator), Refusal>
        ensures { result ≡ next_answer self }
    {
        self.check()?;
        Ok(self.advance())
    }
}

// The half coset's iterator, then its conjugate's.
#[derive(Clone, Copy, Debug, PartialEq, Eq)]
pub struct CircleDomainIndexIterator {
    pub first: CosetIterator,
    pub second: CosetIterator,
}

impl CircleDomainIndexIterator {
    pub fn next(self) -> Result<(Option<CirclePointIndex>, CircleDomainIndexIterator), Refusal>
        ensures { result ≡ domain_next_answer self }
    {
        self.first.check()?;
        self.second.check()?;
        let (index, first) = self.first.advance();
        if index.is_some() {
            return Ok((
                index,
                CircleDomainIndexIterator {
                    first,
                    second: self.second,
                },
            ));
        }
        let (index, second) = self.second.advance();
        Ok((index, CircleDomainIndexIterator { first, second }))
    }
}
