// RIP version 2 Response messages (RFC 2453): sizes, what reading answers, and leaf functions on numbers and single entries. specs/ has change request
// Three's definitions, proofs/ their laws and the theorems; the calls are in the crate `messages`.
//
// No function has a precondition.
#![tactic(auto)]

ghost use Rattle.std.specs.Prelude.{◌≡◌, cond, ◌+◌, ◌*◌, ◌<◌};
ghost use Rattle.filling.specs.Filling.{Wrote, copied};
ghost use Rattle.network.specs.Answered.{answered};
ghost use Rattle.response.specs.Messages.{hops_metric_of, entry, entry_count_of, message_count_of, messages_length_of, base_fault, given_then};
ghost use Rattle.records.specs.Numbers.{num32};
ghost use Rattle.response.specs.Reading.{entry_fault, entry_metric};

use arrayvec::ArrayVec;
use network::{Fault, NODES};

// The metric that stands for no route.
pub const INFINITY: u8 = 16;

// The bytes of a message before its entries, and of an entry.
pub const HEADER_LENGTH: usize = 4;

pub const ENTRY_LENGTH: usize = 20;

// The entries of each message but the last, as a number and as a size, and the bytes of such a message. Here and in `messages` casts from u32 to usize
// stay: the library has no From for it.
pub const MOST_ENTRIES: u32 = 25;

const ENTRIES: usize = MOST_ENTRIES as usize;

pub const FULL_LENGTH: usize = HEADER_LENGTH + ENTRIES * ENTRY_LENGTH;

// The bytes of the messages of the most nodes: an output of so many is always enough.
pub const MAX_MESSAGES: usize = (NODES + ENTRIES - 1) / ENTRIES * HEADER_LENGTH
    + NODES * ENTRY_LENGTH;

// Address family 2 and tag 0 as one number; the mask 255.255.255.255.
const FAMILY_TAG: u32 = 0x0002_0000;

const MASK: u32 = 0xffff_ffff;

// What reading answers: the metrics of nodes 0, 1 and on.
pub type Metrics = ArrayVec<u8, NODES>;

// ---- base and n

// Whether a base's last byte isn't 0.
#[tactic(auto, unfolding(crate::specs::Messages::base_fault))]
pub fn base_refused(base: u32) -> bool
    ensures { result ≡ base_fault base }
{
    base % 256 != 0
}

// Refused as Base for a base whose last byte isn't 0, then as Range for n of 0 or above 32.
#[tactic(auto, unfolding(crate::specs::Messages::given_then, crate::specs::Messages::count_fault))]
pub fn check_given(base: u32, n: u32) -> Result<(), Fault>
    ensures { answered result ≡ given_then base n 0 }
{
    if base_refused(base) {
        return Err(Fault::Base);
    }
    if n == 0 || network::MAX_NODES < n {
        return Err(Fault::Range);
    }
    Ok(())
}

// ---- sizes

// How many messages n nodes take.
#[tactic(auto, unfolding(crate::specs::Messages::message_count_of))]
pub fn message_count(n: u32) -> u32
    ensures { result ≡ message_count_of n }
{
    n.div_ceil(MOST_ENTRIES)
}

// How many of n nodes message k has.
#[tactic(auto, unfolding(crate::specs::Messages::entry_count_of))]
pub fn entry_count(n: u32, k: u32) -> u32
    ensures { result ≡ entry_count_of n k }
{
    n.saturating_sub(k.saturating_mul(MOST_ENTRIES))
        .min(MOST_ENTRIES)
}

// How many bytes the messages of n nodes are.
#[tactic(auto, unfolding(crate::specs::Messages::messages_length_of, crate::specs::Messages::message_count_of))]
pub fn messages_length(n: u32) -> usize
    ensures { result ≡ messages_length_of n }
{
    message_count(n) as usize * HEADER_LENGTH + n as usize * ENTRY_LENGTH
}

// ---- an entry

// The metric for so many hops.
#[tactic(auto, unfolding(crate::specs::Messages::hops_metric_of))]
pub fn hops_metric(hops: u32) -> u8
    ensures { result ≡ hops_metric_of hops }
{
    if 15 <= hops {
        return INFINITY;
    }
    // At most 15, so that nothing is cut off.
    (hops + 1) as u8
}

// Writes an entry of the address a and the metric m at the front of an output, and answers the bytes used; in a shorter output nothing is written, and
// the answer is 0. It stays 0 and does not become a Result: the call could not fail.
pub fn put_entry(a: u32, m: u8, out: &mut [u8]) -> usize
    ensures { Wrote (copied (entry a m) out.old) out.old out.new result }
{
    if out.len() < ENTRY_LENGTH {
        return 0;
    }
    out[..4].copy_from_slice(&[0, 2, 0, 0]);
    out[4..8].copy_from_slice(&a.to_be_bytes());
    out[8..ENTRY_LENGTH].copy_from_slice(&[255, 255, 255, 255, 0, 0, 0, 0, 0, 0, 0, m]);
    ENTRY_LENGTH
}

// The numbers in the four bytes from i on and in the next four as one; a byte past the end counts as 0.
#[tactic(auto, unfolding(records::specs::Numbers::num32, records::specs::Numbers::num16, records::specs::Numbers::num8))]
fn double(b: &[u8], i: usize) -> u64
    requires { i < 32 }
    ensures { result ≡ num32 b.now i * 4294967296 + num32 b.now (i + 4) }
{
    if b.len() <= i {
        return 0;
    }
    if let Some(bytes) = b[i..].first_chunk::<8>() {
        return u64::from_be_bytes(*bytes);
    }
    u64::from(reading::word(b, i)) * 4294967296 + u64::from(reading::word(b, i + 4))
}

// The metric of the entry that a part is; None where a field is wrong.
pub fn read_entry(part: &[u8], a: u32) -> Option<u8>
    ensures { result ≡ cond (entry_fault a part.now) None (Some (entry_metric part.now)) }
{
    // Family, tag and address; mask and next hop.
    if double(part, 0) != u64::from(FAMILY_TAG) * 4294967296 + u64::from(a)
        || double(part, 8) != u64::from(MASK) * 4294967296
    {
        return None;
    }
    let m = reading::word(part, 16);
    if m == 0 || u32::from(INFINITY) < m {
        return None;
    }
    // At most 16, so that nothing is cut off.
    Some(m as u8)
}
