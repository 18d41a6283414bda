// Rounds on a network in words that the caller lends: hearing, offers and new rows.
//
// Contracts go through `memory`'s `view` and hold for any words. A refused round leaves every word as it stood. No public function has a
// precondition; the private ones ask for what their callers have tested.
//
// Nodes are numbers of 32 bits, and indices here, for which std has no `From<u32>`: `as usize`, and `as u32` of what is below 32.
#![tactic(auto)]

ghost use Rattle.std.specs.Prelude.{◌≡◌, ◌≢◌, true, cond, ℕ, ◌<◌, length, set, option_map};
ghost use Rattle.network.specs.Answered.{answered};
ghost use Rattle.network.specs.Network.{with_row};
ghost use Rattle.network.specs.Round.{renew, round, every_arc, round_of, full_round_of};
ghost use Rattle.network.specs.Words.{route_means};
ghost use Rattle.network.specs.Arcs.{arcs_to, senders};
ghost use Rattle.memory.specs.Layout.{word_count, view};
ghost use Rattle.memory.specs.Answers.{Leaves};
ghost use Rattle.routing.specs.Inner.{by_words, Primed, hear_arcs, given, new_row, one_mark, row_marks, outside_rows};

use memory::{
    ARCS, COSTS, HELD_LABELS, HELD_LISTS, Network, ROW_LABELS, ROW_LISTS, ROW_PREDECESSORS,
};
use network::{Fault, Route};

// One of 32 nodes.
#[derive(Clone, Copy)]
struct Node {
    index: usize,
    ghost small: { index < 32 },
}

// ---- hearing

// Stores a word if it is another one: a later read of words side by side waits for the store of one of them.
fn put_word(net: &mut Network, at: usize, word: u32)
    requires { at < word_count }
    ensures { net.new ≡ set net.old at word }
{
    if net[at] != word {
        net[at] = word;
    }
}

// The origin's words become those of its row, which is not read from memory.
#[tactic(auto, using(memory::proofs::Laws::few, crate::proofs::Hearing::primes, crate::proofs::Hearing::unprimed))]
fn prime(net: &mut Network)
    ensures { Primed net.old net.new }
{
    let origin = memory::origin(net);
    if origin < memory::nodes(net) {
        put_word(net, ROW_LABELS + origin as usize, 0);
        put_word(
            net,
            ROW_LISTS + origin as usize,
            ancestors::joined(0, origin),
        );
    }
}

// Both words are read before the test, so that the compiler selects without a branch.
fn either(marked: bool, new: u32, old: u32) -> u32
    ensures { result ≡ cond marked new old }
{
    if marked { new } else { old }
}

// Network, receiver and a word of arcs or marks stay three parameters: the network is lent to be changed, and a struct of the three would be made for each
// receiver and taken apart at once, no plainer.

// A marked arc holds what its sender's row reports; an unmarked one keeps its report. What is stored at a pair without an arc plays no part. `told` is a
// bit for `either`.
#[tactic(auto, using(crate::proofs::Hearing::hear_arc))]
fn hear_arc(net: &mut Network, sender: Node, receiver: Node, told: bool)
    ensures { by_words net.new ≡ hear_arcs (one_mark sender.index receiver.index told) (by_words net.old) }
{
    let s = sender.index;
    let at = receiver.index * 32 + s;
    net[HELD_LABELS + at] = either(told, net[ROW_LABELS + s], net[HELD_LABELS + at]);
    net[HELD_LISTS + at] = either(told, net[ROW_LISTS + s], net[HELD_LISTS + at]);
}

// From mark to mark.
fn hear_few(net: &mut Network, receiver: Node, word: u32)
    ensures { by_words net.new ≡ hear_arcs (row_marks receiver.index word 32) (by_words net.old) }
{
    for s in ancestors::nodes_of(word) {
        hear_arc(net, Node { index: s as usize }, receiver, true);
    }
}

// Four senders at a time: the compiler makes vector instructions of four arcs. The last ones may be no nodes.
#[tactic(auto, using(memory::proofs::Laws::few, crate::proofs::Hearing::row_begun))]
fn hear_fours(net: &mut Network, receiver: Node, word: u32)
    ensures { by_words net.new ≡ hear_arcs (row_marks receiver.index word 32) (by_words net.old) }
{
    let n = memory::nodes(net) as usize;
    for s in (0..n).step_by(4) {
        for k in 0usize..4 {
            let told = ancestors::listed(word, (s + k) as u32);
            hear_arc(net, Node { index: s + k }, receiver, told);
        }
    }
}

// Among how many nodes it takes no longer to go from mark to mark, whatever marks there are.
const FEW_NODES: u32 = 4;

// Goes from mark to mark among few nodes and where no two beside each other are marked, and else through all senders, which takes less time for each.
fn hear_row(net: &mut Network, receiver: Node, word: u32)
    ensures { by_words net.new ≡ hear_arcs (row_marks receiver.index word 32) (by_words net.old) }
{
    if memory::nodes(net) <= FEW_NODES || word & (word >> 1) == 0 {
        hear_few(net, receiver, word);
    } else {
        hear_fours(net, receiver, word);
    }
}

// The arcs of a receiver, as a word.
#[tactic(auto, using(memory::proofs::ArcLaws::arcs_word))]
fn arcs_of(net: &Network, receiver: Node) -> u32
    ensures { result ≡ arcs_to (view net.now) receiver.index }
{
    net[ARCS + receiver.index] & faults::senders(memory::nodes(net), receiver.index as u32)
}

// Hears the marks, by receiver, or every arc.
#[tactic(auto, using(memory::proofs::Laws::few, crate::proofs::Hearing::rows_begun, crate::proofs::Hearing::rows_done))]
fn hear_marks(net: &mut Network, marks: Option<&[u32; 32]>)
    ensures { by_words net.new ≡ hear_arcs (given (view net.old) (option_map (λ words. words.now) marks.entry)) (by_words net.old) }
{
    for r in 0..memory::nodes(net) as usize {
        let word = match marks {
            Some(words) => words[r],
            None => arcs_of(net, Node { index: r }),
        };
        hear_row(net, Node { index: r }, word);
    }
}

// ---- new rows

// The row that a receiver chooses. The words of a network are never refused.
#[tactic(auto, using(memory::proofs::Laws::few))]
fn choose_row(net: &Network, receiver: usize) -> Option<Route>
    requires node { receiver < (view net.now).nodes }
    ensures { route_means result ≡ new_row (view net.now) receiver }
{
    let n = memory::nodes(net) as usize;
    let arcs = ancestors::left_out(net[ARCS + receiver], receiver as u32);
    let c = COSTS + receiver * 32;
    let d = HELD_LABELS + receiver * 32;
    let l = HELD_LISTS + receiver * 32;
    let chosen = rule::choose(
        arcs,
        &net[c..c + n],
        &net[d..d + n],
        &net[l..l + n],
        receiver as u32,
    );
    chosen.unwrap_or(None)
}

// A receiver's new row; no route is words of 0.
#[tactic(auto, using(memory::proofs::Laws::few))]
fn renew_row(net: &mut Network, receiver: usize)
    requires node { receiver < (view net.old).nodes }
    requires not_origin { receiver ≢ (view net.old).origin }
    ensures { view net.new ≡ with_row (view net.old) receiver (new_row (view net.old) receiver) }
{
    let none = Route {
        label: 0,
        predecessor: 0,
        list: 0,
    };
    let route = choose_row(net, receiver).unwrap_or(none);
    net[ROW_LABELS + receiver] = route.label;
    net[ROW_PREDECESSORS + receiver] = route.predecessor;
    net[ROW_LISTS + receiver] = route.list;
}

#[tactic(auto, using(crate::proofs::Renewing::renewed_none, crate::proofs::Renewing::renewed_origin, crate::proofs::Renewing::renewing_nodes, crate::proofs::Renewing::renewing_origin, crate::proofs::Renewing::renewing_next, crate::proofs::Renewing::renewing_done))]
fn renew_rows(net: &mut Network)
    ensures { view net.new ≡ renew (view net.old) }
{
    let origin = memory::origin(net) as usize;
    let n = memory::nodes(net) as usize;
    for r in 0..n {
        if r != origin {
            renew_row(net, r);
        }
    }
}

// Hears the marks, or every arc, and then gives every node but the origin a new row.
#[tactic(auto, using(crate::proofs::Rounding::advanced))]
fn advance(net: &mut Network, marks: Option<&[u32; 32]>)
    requires { (s r : ℕ) → given (view net.old) (option_map (λ words. words.now) marks) s r ≡ true → every_arc (view net.old) s r ≡ true }
    ensures { view net.new ≡ round (given (view net.old) (option_map (λ words. words.now) marks.entry)) (view net.old) }
{
    prime(net);
    hear_marks(net, marks);
    renew_rows(net);
}

// ---- refusals

// What is in range for one of 32 nodes, as `faults::senders` has it, by a bit: where two numbers are compared, a loop over all nodes compares 64 bits of each
// and takes a third longer.
fn in_range(n: u32, receiver: u32) -> u32
    requires { receiver < 32 }
    ensures { result ≡ senders n receiver }
{
    let all = ancestors::below(u32::MAX, n);
    if ancestors::listed(all, receiver) {
        return ancestors::left_out(all, receiver);
    }
    0
}

// Whether a mark of a receiver is not in its word of the words given, or out of range. All are passed without a branch, as vectors: where a closure
// gave each word, the compiler made none.
#[tactic(auto, using(crate::proofs::Marks::outside_none, crate::proofs::Marks::outside_next))]
fn any_outside(n: u32, marks: &[u32], words: &[u32]) -> bool
    requires marks_len { length marks.now ≡ 32 }
    requires words_len { length words.now ≡ 32 }
    ensures { result ≡ outside_rows n marks.now words.now 32 }
{
    let mut found = false;
    for r in 0u32..32 {
        let word = words[r as usize] & in_range(n, r);
        found = rule::or(found, ancestors::outside(marks[r as usize], word));
    }
    found
}

// ---- a round

// A round on 32 words of marks; word r has bit s for "r heard s". Refused as Cut for another number of words; as Range for a mark out of range or
// from a node to itself, anywhere; then as Mark for a mark without an arc, anywhere.
#[tactic(auto, using(crate::proofs::Marks::stray_words, crate::proofs::Marks::idle_words, crate::proofs::Rounding::round_cut, crate::proofs::Rounding::round_stray, crate::proofs::Rounding::round_idle))]
pub fn round(net: &mut Network, marks: &[u32]) -> Result<(), Fault>
    ensures { Leaves (round_of (view net.old) marks.now) (answered result) net.old net.new }
{
    if marks.len() != 32 {
        return Err(Fault::Cut);
    }
    let n = memory::nodes(net);
    // A mark that is out of range has no arc.
    if any_outside(n, marks, &net[ARCS..ARCS + 32]) {
        if any_outside(n, marks, &[u32::MAX; 32]) {
            return Err(Fault::Range);
        }
        return Err(Fault::Mark);
    }
    advance(net, marks.as_array::<32>());
    Ok(())
}

// A round with every arc heard: each receiver's marks are the word of its arcs. It is never refused.
#[tactic(auto, using(crate::proofs::Rounding::arcs_given, crate::proofs::Rounding::full_round_done))]
pub fn full_round(net: &mut Network)
    ensures { Leaves (full_round_of (view net.old)) 0 net.old net.new }
{
    advance(net, None);
}
