// The transform of columns (transform).
ghost use Rattle.std.specs.Prelude.{◌≡◌, length};
ghost use Rattle.transform.specs.Transform.{transform_answer, Evaluated, Interpolated};
ghost use Rattle.taripomune.specs.Reply.{write_reply};

use crate::reply::WriteReply;
use transform::{evaluate, interpolate};

pub fn tari_evaluate(log_size: u32, column: &mut [u32], scratch: &mut [u32]) -> WriteReply
    ensures { (result ≡ write_reply (transform_answer log_size column.old (length scratch.old)))
        × Evaluated log_size column.old scratch.old column.new scratch.new }
{
    evaluate(log_size, column, scratch).into()
}

pub fn tari_interpolate(log_size: u32, column: &mut [u32], scratch: &mut [u32]) -> WriteReply
    ensures { (result ≡ write_reply (transform_answer log_size column.old (length scratch.old)))
        × Interpolated log_size column.old scratch.old column.new scratch.new }
{
    interpolate(log_size, column, scratch).into()
}
