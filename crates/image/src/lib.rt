// The image of a network, written into an output that the caller lends.
//
// Each record is written into the part of the output not yet filled: the writer lends the rest of the output to a record writer, which answers
// the bytes used and leaves the remainder unchanged. The network is read by calls of `memory`; which arcs there are it answers once, as words, and an
// arc's cost and report are then read without a look at n. No public function has a precondition.
#![tactic(auto, unfolding(records::specs::Records::body_length))]

ghost use Rattle.std.specs.Prelude.{◌≡◌, not, eqb, ◌+◌, ◌*◌, ◌<◌, ◌≤◌, ◌++◌, ℕ, List, leb, length, take, drop};
ghost use Rattle.ancestors.specs.Ancestors.{has, count};
ghost use Rattle.network.specs.Faults.{max_nodes};
ghost use Rattle.network.specs.Writing.{Writes};
ghost use Rattle.network.specs.Arcs.{arcs_to, arc_words_of};
ghost use Rattle.memory.specs.Layout.{view, held_list_word_of};
ghost use Rattle.records.specs.Numbers.{be16, be32};
ghost use Rattle.records.specs.Records.{record_length, end_record, header_record_of, arc_record_of, row_record_of, report_record_of};
ghost use Rattle.records.specs.Image.{each, image, image_of};
ghost use Rattle.filling.specs.Filling.{Wrote};
ghost use Rattle.image.specs.Items.{route_bytes, used};
ghost use Rattle.image.specs.Lines.{arc_at, row_at, report_at, all_arcs, all_rows, all_reports, rest_of};
ghost use Rattle.image.specs.Measured.{holds, receiver_bytes, most_bytes_of};

use memory::{Network, RowRead};
use network::{Fault, HeldReport, NODES, Pair, Route};

// The bytes of a record of each kind: its kind byte and its body.
const END_LENGTH: usize = 1;

const HEADER_LENGTH: usize = 1 + records::HEADER_BODY;

const ARC_LENGTH: usize = 1 + records::ARC_BODY;

const ROW_LENGTH: usize = 1 + records::ROW_BODY;

const REPORT_LENGTH: usize = 1 + records::REPORT_BODY;

// The first and the last record of an image.
const ENDS_LENGTH: usize = HEADER_LENGTH + END_LENGTH;

// Kinds of records.
const END: u8 = 0;

const HEADER: u8 = 1;

const ARC: u8 = 2;

const ROW: u8 = 3;

const REPORT: u8 = 4;

// ---- records, each at the front of a part, with the bytes used as the answer

// The end of an image.
fn put_end(out: &mut [u8]) -> usize
    requires { record_length 0 ≤ length out.old }
    ensures { Wrote end_record out.old out.new result }
{
    out[0] = END;
    END_LENGTH
}

// A cast to a byte or to 16 bits is of a remainder that fits. An index is a `usize`, for which std has no `From<u32>`.

// The first record of an image.
fn put_header(out: &mut [u8], n: u32, origin: u32) -> usize
    requires { record_length 1 ≤ length out.old }
    ensures { Wrote (header_record_of n origin) out.old out.new result }
{
    out[0] = HEADER;
    out[1] = (n % 256) as u8;
    out[2] = (origin % 256) as u8;
    HEADER_LENGTH
}

// A number in two bytes, and one in four, from a place on: a place inside a record, and not how far an output is filled.
fn put16(out: &mut [u8], at: usize, x: u32)
    requires { at + 2 ≤ length out.old }
    ensures { out.new ≡ take at out.old ++ (be16 x ++ drop (at + 2) out.old) }
{
    out[at..at + 2].copy_from_slice(&((x % 65536) as u16).to_be_bytes());
}

fn put32(out: &mut [u8], at: usize, x: u32)
    requires { at + 4 ≤ length out.old }
    ensures { out.new ≡ take at out.old ++ (be32 x ++ drop (at + 4) out.old) }
{
    out[at..at + 4].copy_from_slice(&x.to_be_bytes());
}

// The record of an arc. Kind and sender are one number, stored at once: they stay the same for all receivers of a sender.
fn put_arc(out: &mut [u8], pair: Pair, cost: u32) -> usize
    requires { record_length 2 ≤ length out.old }
    ensures { Wrote (arc_record_of pair.sender pair.receiver cost) out.old out.new result }
{
    put16(out, 0, u32::from(ARC) * 256 + pair.sender % 256);
    out[2] = (pair.receiver % 256) as u8;
    put16(out, 3, cost);
    ARC_LENGTH
}

// The record of a row.
fn put_row(out: &mut [u8], node: u32, route: Route) -> usize
    requires { record_length 3 ≤ length out.old }
    ensures { Wrote (row_record_of node route.label route.predecessor route.list) out.old out.new result }
{
    out[0] = ROW;
    out[1] = (node % 256) as u8;
    put32(out, 2, route.label);
    out[6] = (route.predecessor % 256) as u8;
    put32(out, 7, route.list);
    ROW_LENGTH
}

// The record of a report.
fn put_report(out: &mut [u8], pair: Pair, report: HeldReport) -> usize
    requires { record_length 4 ≤ length out.old }
    ensures { Wrote (report_record_of pair.sender pair.receiver report.label report.list) out.old out.new result }
{
    out[0] = REPORT;
    out[1] = (pair.sender % 256) as u8;
    out[2] = (pair.receiver % 256) as u8;
    put32(out, 3, report.label);
    put32(out, 7, report.list);
    REPORT_LENGTH
}

// ---- what the network has

// A network with the words of its arcs, one for each receiver; `Drop` alone, since it is made for one call. The pair or the output that goes with it is
// another one in each call, so that a struct of all would be made for each record, no plainer.
#[derive(Drop)]
struct Source<'a> {
    net: &'a Network,
    arcs: &'a [u32; NODES],
    ghost words: { arcs.now ≡ arc_words_of (view net.now) },
}

// The bounds of a pair stand in three contracts: a pair in range would be a struct that names its network and is taken apart at each call, no plainer.

// Whether the pair has an arc.
fn has_arc(from: &Source, pair: Pair) -> bool
    requires sender_bound { pair.sender < (view from.now.net.now).nodes }
    requires receiver_bound { pair.receiver < (view from.now.net.now).nodes }
    ensures { result ≡ has (arcs_to (view from.now.net.now) pair.receiver) pair.sender }
{
    ancestors::listed(from.arcs[pair.receiver as usize], pair.sender)
}

// A relay's route; none of the origin, and of what is no node.
fn relay_route(net: &Network, node: u32) -> Option<Route>
    ensures { route_bytes node result ≡ row_at (view net.now) node }
{
    match memory::row(net, node) {
        Ok(RowRead::Relay { route, hops: _ }) => Some(route),
        Ok(RowRead::NoRoute) => None,
        Ok(RowRead::Origin { list: _, hops: _ }) => None,
        Err(_) => None,
    }
}

// ---- a record where the network has one, at the front of a part: answers the bytes used, and none where it has none, so that no 0 is added to a place

fn write_arc(from: &Source, pair: Pair, out: &mut [u8]) -> Option<usize>
    requires sender_bound { pair.sender < (view from.now.net.now).nodes }
    requires receiver_bound { pair.receiver < (view from.now.net.now).nodes }
    requires room { length (arc_at (view from.now.net.now) pair.sender pair.receiver) ≤ length out.old }
    ensures { Wrote (arc_at (view from.now.net.now) pair.sender pair.receiver) out.old out.new (used result) }
{
    if !has_arc(from, pair) {
        return None;
    }
    Some(put_arc(out, pair, memory::cost_word(from.net, pair)))
}

fn write_row(net: &Network, node: u32, out: &mut [u8]) -> Option<usize>
    requires { length (row_at (view net.now) node) ≤ length out.old }
    ensures { Wrote (row_at (view net.now) node) out.old out.new (used result) }
{
    match relay_route(net, node) {
        None => None,
        Some(route) => Some(put_row(out, node, route)),
    }
}

fn write_report(from: &Source, pair: Pair, out: &mut [u8]) -> Option<usize>
    requires sender_bound { pair.sender < (view from.now.net.now).nodes }
    requires receiver_bound { pair.receiver < (view from.now.net.now).nodes }
    requires room { length (report_at (view from.now.net.now) pair.sender pair.receiver) ≤ length out.old }
    ensures { Wrote (report_at (view from.now.net.now) pair.sender pair.receiver) out.old out.new (used result) }
{
    if !has_arc(from, pair) {
        return None;
    }
    let list = memory::held_list_word(from.net, pair);
    if list == 0 {
        return None;
    }
    let report = HeldReport {
        label: memory::held_label_word(from.net, pair),
        list,
    };
    Some(put_report(out, pair, report))
}

// ---- records, one after another

// The rows.
fn write_rows(net: &Network, out: &mut [u8]) -> usize
    requires { length (all_rows (view net.now)) ≤ length out.old }
    ensures { Wrote (all_rows (view net.now)) out.old out.new result }
{
    let mut at: usize = 0;
    for node in 0..memory::nodes(net) {
        if let Some(k) = write_row(net, node, &mut out[at..]) {
            at += k;
        }
    }
    at
}

// How many bytes are used of a part for arcs, and of one for reports.
#[derive(Clone, Copy)]
struct Filled {
    arcs: usize,
    reports: usize,
}

// Arcs and reports are written in one pass over the pairs, each into a part of its own: most of the time is spent on going from pair to pair.

// Those from a sender to the n receivers.
fn write_sender(from: &Source, sender: u32, n: u32, arcs: &mut [u8], reports: &mut [u8]) -> Filled
    requires sender_bound { sender < n }
    requires n_value { n ≡ (view from.now.net.now).nodes }
    requires arcs_room { length (each (arc_at (view from.now.net.now) sender) 0 n) ≤ length arcs.old }
    requires reports_room { length (each (report_at (view from.now.net.now) sender) 0 n) ≤ length reports.old }
    ensures arcs { Wrote (each (arc_at (view from.now.net.now) sender) 0 n) arcs.old arcs.new result.arcs }
    ensures reports { Wrote (each (report_at (view from.now.net.now) sender) 0 n) reports.old reports.new result.reports }
{
    let mut i: usize = 0;
    let mut k: usize = 0;
    for receiver in 0..n {
        let pair = Pair { sender, receiver };
        if let Some(used) = write_arc(from, pair, &mut arcs[i..]) {
            i += used;
        }
        if let Some(used) = write_report(from, pair, &mut reports[k..]) {
            k += used;
        }
    }
    Filled {
        arcs: i,
        reports: k,
    }
}

// All of them.
fn write_pairs(from: &Source, arcs: &mut [u8], reports: &mut [u8]) -> Filled
    requires arcs_room { length (all_arcs (view from.now.net.now)) ≤ length arcs.old }
    requires reports_room { length (all_reports (view from.now.net.now)) ≤ length reports.old }
    ensures arcs { Wrote (all_arcs (view from.now.net.now)) arcs.old arcs.new result.arcs }
    ensures reports { Wrote (all_reports (view from.now.net.now)) reports.old reports.new result.reports }
{
    let n = memory::nodes(from.net);
    let mut i: usize = 0;
    let mut k: usize = 0;
    for sender in 0..n {
        let filled = write_sender(from, sender, n, &mut arcs[i..], &mut reports[k..]);
        i += filled.arcs;
        k += filled.reports;
    }
    Filled {
        arcs: i,
        reports: k,
    }
}

// The bytes of the arcs in a receiver's word. A count is a `usize` there, and so is an index below, for which std has no `From<u32>`.
fn word_length(arcs: u32) -> usize
    ensures { result ≡ count (has arcs) max_nodes * record_length 2 }
{
    ancestors::count_nodes(arcs) as usize * ARC_LENGTH
}

// The bytes of all arcs, by their words.
fn arcs_length(from: &Source) -> usize
    ensures { result ≡ length (all_arcs (view from.now.net.now)) }
{
    let mut total: usize = 0;
    for r in 0..memory::nodes(from.net) {
        total += word_length(from.arcs[r as usize]);
    }
    total
}

// Writes what follows the first record where there is room for it: arcs into the front, and rows, reports and the last record after them.
fn write_rest(from: &Source, out: &mut [u8]) -> usize
    requires { length (rest_of (view from.now.net.now)) ≤ length out.old }
    ensures { Wrote (rest_of (view from.now.net.now)) out.old out.new result }
{
    let (arcs, rest) = out.split_at_mut(arcs_length(from));
    let rows = write_rows(from.net, rest);
    let filled = write_pairs(from, arcs, &mut rest[rows..]);
    let end = rows + filled.reports;
    let after = end + put_end(&mut rest[end..]);
    filled.arcs + after
}

// Writes an image where there is room for it.
fn write_all(from: &Source, out: &mut [u8]) -> usize
    requires { length (image (view from.now.net.now)) ≤ length out.old }
    ensures { Wrote (image (view from.now.net.now)) out.old out.new result }
{
    let rest = put_header(out, memory::nodes(from.net), memory::origin(from.net));
    rest + write_rest(from, &mut out[rest..])
}

// ---- lengths; std has no `From<u32>` for `usize`

// Whether the receiver holds a report of the sender, where there is an arc.
fn holds_report(net: &Network, sender: u32, receiver: u32) -> bool
    ensures { result ≡ not (eqb (held_list_word_of net.now sender receiver) 0) }
{
    memory::held_list_word(net, Pair { sender, receiver }) != 0
}

// Network, word of arcs and receiver stay three parameters: a struct would be built for each receiver and taken apart in each count, no plainer.

// How many reports receiver r holds, over these arcs, from arc to arc. Alone it takes 4 times as long on a full network, and the next one alone twice as
// long on one with few arcs, so that both stay.
fn held_few(net: &Network, arcs: u32, r: u32) -> u32
    ensures { result ≡ count (holds net.now arcs r) max_nodes }
{
    let mut total: u32 = 0;
    for s in ancestors::nodes_of(arcs) {
        total += u32::from(holds_report(net, s, r));
    }
    total
}

// The same: all 32 senders are passed, without a branch: a loop of known length over words that lie side by
// side becomes vector instructions.
fn held_all(net: &Network, arcs: u32, r: u32) -> u32
    ensures { result ≡ count (holds net.now arcs r) max_nodes }
{
    let mut total: u32 = 0;
    for s in 0u32..network::MAX_NODES {
        total += u32::from(ancestors::listed(arcs, s) & holds_report(net, s, r));
    }
    total
}

// The same, from arc to arc where no two beside each other are arcs.
fn held_count(net: &Network, arcs: u32, r: u32) -> u32
    ensures { result ≡ count (holds net.now arcs r) max_nodes }
{
    if arcs & (arcs >> 1) == 0 {
        return held_few(net, arcs, r);
    }
    held_all(net, arcs, r)
}

// The bytes of node r's row; 0 where none is written.
fn row_length(net: &Network, r: u32) -> usize
    ensures { result ≡ length (row_at (view net.now) r) }
{
    match relay_route(net, r) {
        None => 0,
        Some(_) => ROW_LENGTH,
    }
}

// The bytes of an image, without the first and the last record, that are of receiver r: its row, the arcs to it, and the reports that it holds.
fn receiver_length(net: &Network, arcs: u32, r: u32) -> usize
    requires { arcs ≡ arcs_to (view net.now) r }
    ensures { result ≡ receiver_bytes (view net.now) r }
{
    row_length(net, r) + word_length(arcs) + held_count(net, arcs, r) as usize * REPORT_LENGTH
}

// The length of an image, by the arcs' words.
fn counted_length(from: &Source) -> usize
    ensures { result ≡ length (image (view from.now.net.now)) }
{
    let mut total = ENDS_LENGTH;
    for r in 0..memory::nodes(from.net) {
        total += receiver_length(from.net, from.arcs[r as usize], r);
    }
    total
}

// The most bytes of an image of n nodes: every pair with an arc and a report, every node but the origin with a route.
fn most_bytes(n: u32) -> usize
    requires n_nonzero { 0 < n }
    requires n_le_max_nodes { n ≤ max_nodes }
    ensures { result ≡ most_bytes_of n }
{
    let others = n as usize - 1;
    ENDS_LENGTH + n as usize * others * (ARC_LENGTH + REPORT_LENGTH) + others * ROW_LENGTH
}

// Whether an output of this length has room for the image. No image of a network with its origin among n nodes is longer than the most for n, so that
// nothing is counted for an output of that length.
fn fits(from: &Source, room: usize) -> bool
    ensures { result ≡ leb (length (image (view from.now.net.now))) room }
{
    let n = memory::nodes(from.net);
    if memory::origin(from.net) < n {
        if most_bytes(n) <= room {
            return true;
        }
    }
    counted_length(from) <= room
}

// ---- the calls

// The length of a network's image.
pub fn image_length(net: &Network) -> usize
    ensures { result ≡ length (image (view net.now)) }
{
    // On the stack (no heap).
    let mut arcs = [0u32; NODES];
    memory::arc_words(net, &mut arcs);
    counted_length(&Source { net, arcs: &arcs })
}

// Writes a network's image and answers its length. Refused as Room where the output is shorter than the image, and then nothing is written.
pub fn write_image(net: &Network, out: &mut [u8]) -> Result<usize, Fault>
    ensures { Writes (image_of (view net.now) out.old) result out.new }
{
    // On the stack (no heap).
    let mut arcs = [0u32; NODES];
    memory::arc_words(net, &mut arcs);
    let from = Source { net, arcs: &arcs };
    if !fits(&from, out.len()) {
        return Err(Fault::Room);
    }
    Ok(write_all(&from, out))
}
