// Replies: the refusal's number (0: accepted) and position, then the values (0 on a refusal). The C interface has a struct for
// each kind of value, also where the fields are the same.
ghost use Rattle.std.specs.Prelude.{◌≡◌};
ghost use Rattle.taripomune.specs.Reply.{m31_reply, bool_reply, u32_reply, u64_reply, cm31_reply, qm31_reply};
ghost use Rattle.taripomune.specs.Reply.{array_reply, point_reply, secure_point_reply, index_reply, write_reply};

use circle::index::CirclePointIndex;
use circle::point::CirclePoint;
use fields::cm31::CM31;
use fields::m31::M31;
use fields::qm31::{QM31, SECURE_EXTENSION_DEGREE};
use fields::refusal::Refusal;

#[repr(C)]
#[derive(Clone, Copy, Default)]
pub struct M31Reply {
    pub number: u32,
    pub position: u64,
    pub value: u32,
}

impl From<Result<M31, Refusal>> for M31Reply {
    ghost from_gives = { λ answer reply. reply ≡ m31_reply answer };

    fn from(answer: Result<M31, Refusal>) -> Self {
        match answer {
            Ok(a) => Self {
                value: a.0,
                ..Self::default()
            },
            Err(why) => refused!(why),
        }
    }
}

// yes is 1, no is 0
#[repr(C)]
#[derive(Clone, Copy, Default)]
pub struct BoolReply {
    pub number: u32,
    pub position: u64,
    pub value: u32,
}

impl From<Result<bool, Refusal>> for BoolReply {
    ghost from_gives = { λ answer reply. reply ≡ bool_reply answer };

    fn from(answer: Result<bool, Refusal>) -> Self {
        match answer {
            Ok(b) => Self {
                value: b as u32,
                ..Self::default()
            },
            Err(why) => refused!(why),
        }
    }
}

// a log size or a count
#[repr(C)]
#[derive(Clone, Copy, Default)]
pub struct U32Reply {
    pub number: u32,
    pub position: u64,
    pub value: u32,
}

impl From<Result<u32, Refusal>> for U32Reply {
    ghost from_gives = { λ answer reply. reply ≡ u32_reply answer };

    fn from(answer: Result<u32, Refusal>) -> Self {
        match answer {
            Ok(value) => Self {
                value,
                ..Self::default()
            },
            Err(why) => refused!(why),
        }
    }
}

// a position or a size
#[repr(C)]
#[derive(Clone, Copy, Default)]
pub struct U64Reply {
    pub number: u32,
    pub position: u64,
    pub value: u64,
}

impl From<Result<u64, Refusal>> for U64Reply {
    ghost from_gives = { λ answer reply. reply ≡ u64_reply answer };

    fn from(answer: Result<u64, Refusal>) -> Self {
        match answer {
            Ok(value) => Self {
                value,
                ..Self::default()
            },
            Err(why) => refused!(why),
        }
    }
}

// the words of a + bi
#[repr(C)]
#[derive(Clone, Copy, Default)]
pub struct CM31Reply {
    pub number: u32,
    pub position: u64,
    pub a: u32,
    pub b: u32,
}

impl From<Result<CM31, Refusal>> for CM31Reply {
    ghost from_gives = { λ answer reply. reply ≡ cm31_reply answer };

    fn from(answer: Result<CM31, Refusal>) -> Self {
        match answer {
            Ok(x) => Self {
                a: x.0.0,
                b: x.1.0,
                ..Self::default()
            },
            Err(why) => refused!(why),
        }
    }
}

// the words of (a + bi) + (c + di)u
#[repr(C)]
#[derive(Clone, Copy, Default)]
pub struct QM31Reply {
    pub number: u32,
    pub position: u64,
    pub a: u32,
    pub b: u32,
    pub c: u32,
    pub d: u32,
}

impl From<Result<QM31, Refusal>> for QM31Reply {
    ghost from_gives = { λ answer reply. reply ≡ qm31_reply answer };

    fn from(answer: Result<QM31, Refusal>) -> Self {
        match answer {
            Ok(x) => Self {
                a: x.0.0.0,
                b: x.0.1.0,
                c: x.1.0.0,
                d: x.1.1.0,
                ..Self::default()
            },
            Err(why) => refused!(why),
        }
    }
}

// An array of four words crosses as an element of QM31 does.
impl From<Result<[M31; SECURE_EXTENSION_DEGREE], Refusal>> for QM31Reply {
    ghost from_gives = { λ answer reply. reply ≡ array_reply answer };

    fn from(answer: Result<[M31; SECURE_EXTENSION_DEGREE], Refusal>) -> Self {
        match answer {
            Ok(array) => {
                let [a, b, c, d] = array;
                Self {
                    a: a.0,
                    b: b.0,
                    c: c.0,
                    d: d.0,
                    ..Self::default()
                }
            }
            Err(why) => refused!(why),
        }
    }
}

// a point over M31
#[repr(C)]
#[derive(Clone, Copy, Default)]
pub struct PointReply {
    pub number: u32,
    pub position: u64,
    pub x: u32,
    pub y: u32,
}

impl From<Result<CirclePoint<M31>, Refusal>> for PointReply {
    ghost from_gives = { λ answer reply. reply ≡ point_reply answer };

    fn from(answer: Result<CirclePoint<M31>, Refusal>) -> Self {
        match answer {
            Ok(p) => Self {
                x: p.x.0,
                y: p.y.0,
                ..Self::default()
            },
            Err(why) => refused!(why),
        }
    }
}

// a point over QM31: the words of x and then of y
#[repr(C)]
#[derive(Clone, Copy, Default)]
pub struct SecurePointReply {
    pub number: u32,
    pub position: u64,
    pub x0: u32,
    pub x1: u32,
    pub x2: u32,
    pub x3: u32,
    pub y0: u32,
    pub y1: u32,
    pub y2: u32,
    pub y3: u32,
}

impl From<Result<CirclePoint<QM31>, Refusal>> for SecurePointReply {
    ghost from_gives = { λ answer reply. reply ≡ secure_point_reply answer };

    fn from(answer: Result<CirclePoint<QM31>, Refusal>) -> Self {
        match answer {
            Ok(p) => Self {
                x0: p.x.0.0.0,
                x1: p.x.0.1.0,
                x2: p.x.1.0.0,
                x3: p.x.1.1.0,
                y0: p.y.0.0.0,
                y1: p.y.0.1.0,
                y2: p.y.1.0.0,
                y3: p.y.1.1.0,
                ..Self::default()
            },
            Err(why) => refused!(why),
        }
    }
}

#[repr(C)]
#[derive(Clone, Copy, Default)]
pub struct IndexReply {
    pub number: u32,
    pub position: u64,
    pub index: u64,
}

impl From<Result<CirclePointIndex, Refusal>> for IndexReply {
    ghost from_gives = { λ answer reply. reply ≡ index_reply answer };

    fn from(answer: Result<CirclePointIndex, Refusal>) -> Self {
        match answer {
            Ok(index) => Self {
                index: index.0,
                ..Self::default()
            },
            Err(why) => refused!(why),
        }
    }
}

// of a call that writes to a lent slice
#[repr(C)]
#[derive(Clone, Copy, Default)]
pub struct WriteReply {
    pub number: u32,
    pub position: u64,
}

impl From<Result<(), Refusal>> for WriteReply {
    ghost from_gives = { λ answer reply. reply ≡ write_reply answer };

    fn from(answer: Result<(), Refusal>) -> Self {
        match answer {
            Ok(()) => Self::default(),
            Err(why) => refused!(why),
        }
    }
}
