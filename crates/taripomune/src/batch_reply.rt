// The reply of batch inversion: number and position as in reply.rt, then what the passes made (0 and 0 on a refusal).
ghost use Rattle.std.specs.Prelude.{◌≡◌};
ghost use Rattle.taripomune.specs.BatchReply.{batch_reply};

use batch::counts::Counts;
use fields::refusal::Refusal;

// multiplications of elements and inversions
#[repr(C)]
#[derive(Clone, Copy, Default)]
pub struct BatchReply {
    pub number: u32,
    pub position: u64,
    pub multiplications: u64,
    pub inversions: u64,
}

impl From<Result<Counts, Refusal>> for BatchReply {
    ghost from_gives = { λ answer reply. reply ≡ batch_reply answer };

    fn from(answer: Result<Counts, Refusal>) -> Self {
        match answer {
            Ok(counts) => Self {
                multiplications: counts.multiplications,
                inversions: counts.inversions,
                ..Self::default()
            },
            Err(why) => refused!(why),
        }
    }
}
