// Column orders (orders::utils).
ghost use Rattle.std.specs.Prelude.{◌≡◌, length};
ghost use Rattle.orders.specs.BitReverse.{reverse_bits};
ghost use Rattle.orders.specs.Orders.{bit_reverse_index_answer, coset_index_answer, offset_answer, previous_answer, log_size};
ghost use Rattle.orders.specs.Orders.{in_place_answer, in_place_exit, coset_bit_reversed, copy_answer, copy_exit, to_domain};
ghost use Rattle.orders.specs.Orders.{to_coset};
ghost use Rattle.taripomune.specs.Reply.{u64_reply, write_reply};

use crate::reply::{U64Reply, WriteReply};
use orders::utils;

pub fn tari_bit_reverse_index(i: u64, log_size: u32) -> U64Reply
    ensures { result ≡ u64_reply (bit_reverse_index_answer i log_size) }
{
    utils::bit_reverse_index(i, log_size).into()
}

pub fn tari_bit_reverse(v: &mut [u32]) -> WriteReply
    ensures { (result ≡ write_reply (in_place_answer (length v.old)))
        × (v.new ≡ in_place_exit (in_place_answer (length v.old)) (reverse_bits (log_size (length v.old)))
        v.old) }
{
    utils::bit_reverse(v).into()
}

pub fn tari_offset_bit_reversed_circle_domain_index(
    i: u64,
    domain_log_size: u32,
    eval_log_size: u32,
    offset: i64,
) -> U64Reply
    ensures { result ≡ u64_reply (offset_answer i domain_log_size eval_log_size offset) }
{
    utils::offset_bit_reversed_circle_domain_index(i, domain_log_size, eval_log_size, offset).into()
}

pub fn tari_previous_bit_reversed_circle_domain_index(
    i: u64,
    domain_log_size: u32,
    eval_log_size: u32,
) -> U64Reply
    ensures { result ≡ u64_reply (previous_answer i domain_log_size eval_log_size) }
{
    utils::previous_bit_reversed_circle_domain_index(i, domain_log_size, eval_log_size).into()
}

pub fn tari_coset_index_to_circle_domain_index(coset_index: u64, log_domain_size: u32) -> U64Reply
    ensures { result ≡ u64_reply (coset_index_answer coset_index log_domain_size) }
{
    utils::coset_index_to_circle_domain_index(coset_index, log_domain_size).into()
}

pub fn tari_bit_reverse_coset_to_circle_domain_order(v: &mut [u32]) -> WriteReply
    ensures { (result ≡ write_reply (in_place_answer (length v.old)))
        × (v.new ≡ in_place_exit (in_place_answer (length v.old))
        (coset_bit_reversed (log_size (length v.old))) v.old) }
{
    utils::bit_reverse_coset_to_circle_domain_order(v).into()
}

pub fn tari_coset_order_to_circle_domain_order(values: &[u32], dst: &mut [u32]) -> WriteReply
    ensures { (result ≡ write_reply (copy_answer (length values.now) (length dst.old)))
        × (dst.new ≡ copy_exit (copy_answer (length values.now) (length dst.old))
        (to_coset (length values.now)) values.now dst.old) }
{
    utils::coset_order_to_circle_domain_order(values, dst).into()
}

pub fn tari_circle_domain_order_to_coset_order(values: &[u32], dst: &mut [u32]) -> WriteReply
    ensures { (result ≡ write_reply (copy_answer (length values.now) (length dst.old)))
        × (dst.new ≡ copy_exit (copy_answer (length values.now) (length dst.old))
        (to_domain (length values.now)) values.now dst.old) }
{
    utils::circle_domain_order_to_coset_order(values, dst).into()
}
