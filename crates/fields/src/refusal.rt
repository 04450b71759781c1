// Why a call is refused: one case for each row of the table in docs/CALLS.md, in its order, with the position where the row has one.
ghost use Rattle.std.specs.Prelude.{◌≡◌};
ghost use Rattle.fields.specs.Refusal.{number_of, position_of};

#[derive(Clone, Copy, Debug, PartialEq, Eq)]
pub enum Refusal {
    // a log size outside its range
    LogSize,
    // a point index that isn't below 2^31, or a coset position outside its coset
    Index,
    // a scalar outside its range
    Scalar,
    // a slice of the wrong length
    Length,
    // chunk size 0
    Chunk,
    // an element word at or above P; where it is in its slice
    Word(u64),
    // a coset record whose initial or step point isn't its index's point
    Contradiction,
    // a number too large to reduce
    Reduction,
    // the inverse of zero, or a division by it; which element of its batch
    Inverse(u64),
    // an odd index to halve
    Halving,
    // more doublings than the log size
    Doublings,
    // a point off the circle
    Circle,
    // an element that is not in M31
    Narrowing,
}

impl Refusal {
    // The number and the position that the C interface gives.
    pub fn number(self) -> u32
        ensures { result ≡ number_of self }
    {
        match self {
            Refusal::LogSize => 6,
            Refusal::Index => 4,
            Refusal::Scalar => 11,
            Refusal::Length => 8,
            Refusal::Chunk => 9,
            Refusal::Word(_) => 1,
            Refusal::Contradiction => 14,
            Refusal::Reduction => 2,
            Refusal::Inverse(_) => 3,
            Refusal::Halving => 5,
            Refusal::Doublings => 7,
            Refusal::Circle => 10,
            Refusal::Narrowing => 12,
        }
    }

    pub fn position(self) -> u64
        ensures { result ≡ position_of self }
    {
        match self {
            Refusal::Word(at) | Refusal::Inverse(at) => at,
            _ => 0,
        }
    }
}
