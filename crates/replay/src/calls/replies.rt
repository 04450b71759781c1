// Written by host/replay-calls from include/taripomune.h.
// An impl for each reply, some with the same text: C has a struct for each.
use crate::answer::Answer;
use taripomune::batch_reply::BatchReply;
use taripomune::coset_reply::{
    CircleDomainIndexIteratorReply, CircleDomainStepReply, CosetIteratorReply, CosetReply,
    CosetStepReply,
};
use taripomune::reply::{
    BoolReply, CM31Reply, IndexReply, M31Reply, PointReply, QM31Reply, SecurePointReply, U32Reply,
    U64Reply, WriteReply,
};

impl From<M31Reply> for Answer {
    fn from(r: M31Reply) -> Answer {
        Answer::of_reply(&[
            i128::from(r.number),
            i128::from(r.position),
            i128::from(r.value),
        ])
    }
}

impl From<BoolReply> for Answer {
    fn from(r: BoolReply) -> Answer {
        Answer::of_reply(&[
            i128::from(r.number),
            i128::from(r.position),
            i128::from(r.value),
        ])
    }
}

impl From<CM31Reply> for Answer {
    fn from(r: CM31Reply) -> Answer {
        Answer::of_reply(&[
            i128::from(r.number),
            i128::from(r.position),
            i128::from(r.a),
            i128::from(r.b),
        ])
    }
}

impl From<QM31Reply> for Answer {
    fn from(r: QM31Reply) -> Answer {
        Answer::of_reply(&[
            i128::from(r.number),
            i128::from(r.position),
            i128::from(r.a),
            i128::from(r.b),
            i128::from(r.c),
            i128::from(r.d),
        ])
    }
}

impl From<PointReply> for Answer {
    fn from(r: PointReply) -> Answer {
        Answer::of_reply(&[
            i128::from(r.number),
            i128::from(r.position),
            i128::from(r.x),
            i128::from(r.y),
        ])
    }
}

impl From<SecurePointReply> for Answer {
    fn from(r: SecurePointReply) -> Answer {
        Answer::of_reply(&[
            i128::from(r.number),
            i128::from(r.position),
            i128::from(r.x0),
            i128::from(r.x1),
            i128::from(r.x2),
            i128::from(r.x3),
            i128::from(r.y0),
            i128::from(r.y1),
            i128::from(r.y2),
            i128::from(r.y3),
        ])
    }
}

impl From<IndexReply> for Answer {
    fn from(r: IndexReply) -> Answer {
        Answer::of_reply(&[
            i128::from(r.number),
            i128::from(r.position),
            i128::from(r.index),
        ])
    }
}

impl From<U32Reply> for Answer {
    fn from(r: U32Reply) -> Answer {
        Answer::of_reply(&[
            i128::from(r.number),
            i128::from(r.position),
            i128::from(r.value),
        ])
    }
}

impl From<U64Reply> for Answer {
    fn from(r: U64Reply) -> Answer {
        Answer::of_reply(&[
            i128::from(r.number),
            i128::from(r.position),
            i128::from(r.value),
        ])
    }
}

impl From<WriteReply> for Answer {
    fn from(r: WriteReply) -> Answer {
        Answer::of_reply(&[i128::from(r.number), i128::from(r.position)])
    }
}

impl From<BatchReply> for Answer {
    fn from(r: BatchReply) -> Answer {
        Answer::of_reply(&[i128::from(r.number), i128::from(r.position)])
    }
}

impl From<CosetReply> for Answer {
    fn from(r: CosetReply) -> Answer {
        Answer::of_reply(&[
            i128::from(r.number),
            i128::from(r.position),
            i128::from(r.initial_index),
            i128::from(r.initial_x),
            i128::from(r.initial_y),
            i128::from(r.step_index),
            i128::from(r.step_x),
            i128::from(r.step_y),
            i128::from(r.log_size),
        ])
    }
}

impl From<CosetIteratorReply> for Answer {
    fn from(r: CosetIteratorReply) -> Answer {
        Answer::of_reply(&[
            i128::from(r.number),
            i128::from(r.position),
            i128::from(r.cur),
            i128::from(r.step),
            i128::from(r.remaining),
        ])
    }
}

impl From<CosetStepReply> for Answer {
    fn from(r: CosetStepReply) -> Answer {
        Answer::of_reply(&[
            i128::from(r.number),
            i128::from(r.position),
            i128::from(r.done),
            i128::from(r.index),
            i128::from(r.cur),
            i128::from(r.step),
            i128::from(r.remaining),
        ])
    }
}

impl From<CircleDomainIndexIteratorReply> for Answer {
    fn from(r: CircleDomainIndexIteratorReply) -> Answer {
        Answer::of_reply(&[
            i128::from(r.number),
            i128::from(r.position),
            i128::from(r.first_cur),
            i128::from(r.first_step),
            i128::from(r.first_remaining),
            i128::from(r.second_cur),
            i128::from(r.second_step),
            i128::from(r.second_remaining),
        ])
    }
}

impl From<CircleDomainStepReply> for Answer {
    fn from(r: CircleDomainStepReply) -> Answer {
        Answer::of_reply(&[
            i128::from(r.number),
            i128::from(r.position),
            i128::from(r.done),
            i128::from(r.index),
            i128::from(r.first_cur),
            i128::from(r.first_step),
            i128::from(r.first_remaining),
            i128::from(r.second_cur),
            i128::from(r.second_step),
            i128::from(r.second_remaining),
        ])
    }
}
