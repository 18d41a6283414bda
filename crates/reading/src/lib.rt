// Reading one record of a state file, and the words of a body.
//
// The crate `records` has document 01's definitions; the functions that others can reach have no precondition.
#![tactic(auto)]

ghost use Rattle.std.specs.Prelude.{◌≡◌, List, ℕ, ◌+◌, ◌<◌, length, drop};
ghost use Rattle.std.specs.Fn.{FnOnceReturnsAt};
ghost use Rattle.records.specs.Numbers.{num8, num16, num32};
ghost use Rattle.records.specs.Records.{at_start, in_image, as_event, body_length, arc_change, grade_change, event_of, refused_record, bodied, record_of};
ghost use Rattle.records.specs.declared.Event.{Event};
ghost use Rattle.records.specs.declared.Event.TheVariants.{Header, Change, Row, Report};

use network::Fault;
use records::{ArcChange, Event, Record};

// ---- numbers; a byte past the end counts as 0, so that no call fails

// Bytes and a place stay two parameters: a body is read once at each place of its kind, and a struct of both would be made for each number, no plainer.

// The number in the byte at i.
#[tactic(auto, unfolding(records::specs::Numbers::num8))]
fn get8(b: &[u8], i: usize) -> u32
    ensures { (result ≡ num8 b.now i) × (result < 256) }
{
    b.get(i).map_or(0, |x| u32::from(*x))
}

// Halves are put together, and a word at once where all its bytes are there, which `from_be_bytes` wants.

// The number in the two bytes from i on.
#[tactic(auto, unfolding(records::specs::Numbers::num16, records::specs::Numbers::num8))]
fn get16(b: &[u8], i: usize) -> u32
    ensures { (result ≡ num16 b.now i) × (result < 65536) }
{
    if b.len() <= i {
        return 0;
    }
    let high = get8(b, i);
    let low = get8(b, i + 1);
    high * 256 + low
}

// The number in the four bytes from i on.
#[tactic(auto, unfolding(records::specs::Numbers::num32, records::specs::Numbers::num16, records::specs::Numbers::num8))]
pub fn word(b: &[u8], i: usize) -> u32
    ensures { result ≡ num32 b.now i }
{
    if b.len() <= i {
        return 0;
    }
    if let Some(bytes) = b[i..].first_chunk::<4>() {
        return u32::from_be_bytes(*bytes);
    }
    let high = get16(b, i);
    let low = get16(b, i + 2);
    high * 65536 + low
}

// ---- bodies

// A change to a cost; cost 0 removes.
#[tactic(auto, unfolding(records::specs::Records::arc_change))]
fn change_to(sender: u32, receiver: u32, cost: u32) -> ArcChange
    ensures { result ≡ arc_change sender receiver cost }
{
    if cost == 0 {
        return ArcChange::Removed { sender, receiver };
    }
    ArcChange::Set {
        sender,
        receiver,
        cost,
    }
}

// The body of kind 1: n, origin.
fn header_body(b: &[u8]) -> Event
    ensures { result ≡ Header (num8 b.now 0) (num8 b.now 1) }
{
    Event::Header {
        nodes: get8(b, 0),
        origin: get8(b, 1),
    }
}

// The body of kind 2: sender, receiver, cost.
fn arc_body(b: &[u8]) -> Event
    ensures { result ≡ Change (arc_change (num8 b.now 0) (num8 b.now 1) (num16 b.now 2)) }
{
    let change = change_to(get8(b, 0), get8(b, 1), get16(b, 2));
    Event::Change(change)
}

// The body of kind 3: node, label, predecessor, list.
fn row_body(b: &[u8]) -> Event
    ensures { result ≡ Row (num8 b.now 0) (num32 b.now 1) (num8 b.now 5) (num32 b.now 6) }
{
    Event::Row {
        node: get8(b, 0),
        label: word(b, 1),
        predecessor: get8(b, 5),
        list: word(b, 6),
    }
}

// The body of kind 4: sender, receiver, label, list.
fn report_body(b: &[u8]) -> Event
    ensures { result ≡ Report (num8 b.now 0) (num8 b.now 1) (num32 b.now 2) (num32 b.now 6) }
{
    Event::Report {
        sender: get8(b, 0),
        receiver: get8(b, 1),
        label: word(b, 2),
        list: word(b, 6),
    }
}

// The body of kind 7: sender, receiver, grade. A grade above 15 is refused at the record's place.
#[tactic(auto, unfolding(records::specs::Records::grade_change, network::specs::Faults::grade_fault))]
fn grade_body(b: &[u8], at: usize) -> Event
    ensures { result ≡ grade_change at (num8 b.now 0) (num8 b.now 1) (num8 b.now 2) }
{
    let grade = get8(b, 2);
    if network::MAX_GRADE < grade {
        return Event::Refusal {
            fault: Fault::Range,
            place: at,
        };
    }
    let change = change_to(get8(b, 0), get8(b, 1), faults::grade_cost(grade));
    Event::Change(change)
}

// ---- records

// A record refused before its body is read.
fn refused(fault: Fault, at: usize) -> Record
    ensures { result ≡ refused_record fault at }
{
    Record {
        event: Event::Refusal { fault, place: at },
        used: 0,
    }
}

// A record whose body has `size` bytes: a short body is refused as Cut, and a whole one is handed to `read` as the part that follows the kind byte.
// Where `size` and `read` are those of a kind, the record is of that kind.
#[tactic(auto, unfolding(records::specs::Records::bodied))]
fn bodied<F: FnOnce(&[u8]) -> Event>(input: &[u8], at: usize, size: usize, read: F) -> Record
    requires in_bounds { at < length input.now }
    requires callable { F.IsAlwaysCallable read }
    ensures { (k : ℕ) → size ≡ body_length k → ((b : List ℕ) (e : Event) → FnOnceReturnsAt F.FnOnce read b e → e ≡ event_of at k b)
        → result ≡ bodied at k (drop (at + 1) input.now) }
{
    let start = at + 1;
    if input.len() - start < size {
        return refused(Fault::Cut, at);
    }
    Record {
        event: read(&input[start..start + size]),
        used: 1 + size,
    }
}

// ---- sections, each matching on the numbers of kinds itself: one function for all three was tried and is slower, and an enum of kinds would be matched
// twice, no plainer; a missing kind byte is refused as Cut, then a kind that is not allowed as Kind

// The first record: kind 1.
pub fn start_record(input: &[u8]) -> Record
    ensures { result ≡ record_of at_start 0 input.now }
{
    if input.is_empty() {
        return refused(Fault::Cut, 0);
    }
    let kind = input[0];
    match kind {
        1 => bodied(input, 0, records::HEADER_BODY, header_body),
        0 | 2 | 3 | 4 | 5 | 6 | 7 => refused(Fault::Kind, 0),
        _ => refused(Fault::Kind, 0),
    }
}

// The record at the place `at` inside an image: kinds 0 and 2 to 4.
#[tactic(auto, using(crate::proofs::ByKind::missing, crate::proofs::ByKind::by_kind), unfolding(records::specs::Records::allowed))]
pub fn image_record(input: &[u8], at: usize) -> Record
    ensures { result ≡ record_of in_image at (drop at input.now) }
{
    if input.len() <= at {
        return refused(Fault::Cut, at);
    }
    let kind = input[at];
    match kind {
        0 => Record {
            event: Event::End,
            used: 1,
        },
        2 => bodied(input, at, records::ARC_BODY, arc_body),
        3 => bodied(input, at, records::ROW_BODY, row_body),
        4 => bodied(input, at, records::REPORT_BODY, report_body),
        1 | 5 | 6 | 7 => refused(Fault::Kind, at),
        _ => refused(Fault::Kind, at),
    }
}

// The record at the place `at` after an image: kinds 2 and 5 to 7.
#[tactic(auto, using(crate::proofs::ByKind::missing, crate::proofs::ByKind::by_kind), unfolding(records::specs::Records::allowed))]
pub fn event_record(input: &[u8], at: usize) -> Record
    ensures { result ≡ record_of as_event at (drop at input.now) }
{
    if input.len() <= at {
        return refused(Fault::Cut, at);
    }
    let kind = input[at];
    match kind {
        2 => bodied(input, at, records::ARC_BODY, arc_body),
        5 => bodied(input, at, records::ROUND_BODY, |_| Event::Round),
        6 => Record {
            event: Event::FullRound,
            used: 1,
        },
        7 => bodied(input, at, records::GRADE_BODY, |b| grade_body(b, at)),
        0 | 1 | 3 | 4 => refused(Fault::Kind, at),
        _ => refused(Fault::Kind, at),
    }
}
