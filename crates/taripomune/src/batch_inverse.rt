// Batch inversion of columns of words (batch).
ghost use Rattle.std.specs.Prelude.{◌≡◌, length};
ghost use Rattle.batch.specs.Batch.{m31_column, cm31_column, qm31_column, in_place_answer, chunked_answer, batch_exit};
ghost use Rattle.taripomune.specs.BatchReply.{batch_reply};

use crate::batch_reply::BatchReply;
use batch::{batch_inverse_chunked, batch_inverse_in_place};
use fields::cm31::CM31;
use fields::m31::M31;
use fields::qm31::QM31;

pub fn tari_m31_batch_inverse_in_place(column: &[u32], dst: &mut [u32]) -> BatchReply
    ensures { (result ≡ batch_reply (in_place_answer m31_column column.now (length dst.old)))
        × (dst.new ≡ batch_exit m31_column (in_place_answer m31_column column.now (length dst.old))
        column.now dst.old) }
{
    batch_inverse_in_place::<M31>(column, dst).into()
}

pub fn tari_m31_batch_inverse_chunked(
    column: &[u32],
    dst: &mut [u32],
    chunk_size: u64,
) -> BatchReply
    ensures { (result ≡ batch_reply (chunked_answer m31_column chunk_size column.now (length dst.old)))
        × (dst.new ≡ batch_exit m31_column (chunked_answer m31_column chunk_size column.now (length dst.old))
        column.now dst.old) }
{
    batch_inverse_chunked::<M31>(column, dst, chunk_size as usize).into()
}

pub fn tari_cm31_batch_inverse_in_place(column: &[u32], dst: &mut [u32]) -> BatchReply
    ensures { (result ≡ batch_reply (in_place_answer cm31_column column.now (length dst.old)))
        × (dst.new ≡ batch_exit cm31_column (in_place_answer cm31_column column.now (length dst.old))
        column.now dst.old) }
{
    batch_inverse_in_place::<CM31>(column, dst).into()
}

pub fn tari_cm31_batch_inverse_chunked(
    column: &[u32],
    dst: &mut [u32],
    chunk_size: u64,
) -> BatchReply
    ensures { (result ≡ batch_reply (chunked_answer cm31_column chunk_size column.now (length dst.old)))
        × (dst.new ≡ batch_exit cm31_column (chunked_answer cm31_column chunk_size column.now (length dst.old))
        column.now dst.old) }
{
    batch_inverse_chunked::<CM31>(column, dst, chunk_size as usize).into()
}

pub fn tari_qm31_batch_inverse_in_place(column: &[u32], dst: &mut [u32]) -> BatchReply
    ensures { (result ≡ batch_reply (in_place_answer qm31_column column.now (length dst.old)))
        × (dst.new ≡ batch_exit qm31_column (in_place_answer qm31_column column.now (length dst.old))
        column.now dst.old) }
{
    batch_inverse_in_place::<QM31>(column, dst).into()
}

pub fn tari_qm31_batch_inverse_chunked(
    column: &[u32],
    dst: &mut [u32],
    chunk_size: u64,
) -> BatchReply
    ensures { (result ≡ batch_reply (chunked_answer qm31_column chunk_size column.now (length dst.old)))
        × (dst.new ≡ batch_exit qm31_column (chunked_answer qm31_column chunk_size column.now (length dst.old))
        column.now dst.old) }
{
    batch_inverse_chunked::<QM31>(column, dst, chunk_size as usize).into()
}
