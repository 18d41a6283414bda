// The ancestor-list rule on numbers and slices: the offer of a held report, and the choice among offers.
//
// The crate `network` has document 01's definitions; the calls on a whole network are in `memory` and `routing`.
// No public function has a precondition.
//
// Senders are indices, for which std has no `From<u32>`; a cast to 32 bits is of a number that fits, as the check shows.
#![tactic(auto)]

ghost use Rattle.std.specs.Prelude.{◌≡◌, true, ◌||◌, ◌+◌, ◌<◌, ◌≤◌, length};
ghost use Rattle.ancestors.specs.Ancestors.{has};
ghost use Rattle.network.specs.Faults.{max_nodes, max_label};
ghost use Rattle.network.specs.Words.{cost_of, offer_below, route_means, choose_of, choice_means};

use network::{Fault, Route};

// Whether either holds. A call and not `||` where a loop over words is to have no branch.
pub fn or(a: bool, b: bool) -> bool
    ensures { result ≡ (a || b) }
{
    a || b
}

// Label plus the cost of a word, less one, as costs are stored.
fn total(label: u32, cost: u32) -> u64
    ensures { result + 1 ≡ label + cost_of cost }
{
    u64::from(label) + u64::from(cost % 65536)
}

// Whether a sender's bit is 1 in a word of arcs. With `ancestors::listed` the loop over all senders keeps a test that the sender is below 32.
fn present(arcs: u32, sender: u32) -> bool
    requires { sender < 32 }
    ensures { result ≡ has arcs sender }
{
    (arcs >> sender) & 1 == 1
}

// What is kept of the senders that were passed: the least sum less one, the first that offers it, and one after which, and after the first, none does.
#[derive(Clone, Copy)]
struct Kept {
    most: u64,
    from: usize,
    last: usize,
}

// Among how many senders it takes no longer to go from arc to arc, whatever arcs there are.
const FEW: usize = 8;

// What a receiver chooses from: its arcs as a word, and by sender the words of their costs and the labels and lists of the reports that it holds.
// Three slices and not one of structs: the words lie by kind in the network's memory (fixed memory). `Drop` alone: it is made for one call.
#[derive(Drop)]
struct Senders<'a> {
    arcs: u32,
    costs: &'a [u32],
    labels: &'a [u32],
    lists: &'a [u32],
    receiver: u32,
    ghost costs_most: { length costs.now ≤ max_nodes },
    ghost labels_all: { length labels.now ≡ length costs.now },
    ghost lists_all: { length lists.now ≡ length costs.now },
    ghost receiver_bound: { receiver < max_nodes },
}

impl<'a> Senders<'a> {
    ghost use Rattle.rule.specs.Passed.{count_of, offers, row_chosen, Passed, Wins};

    // A sender's offer, if it is at most a bound. The sum is tested first: where it is too large neither the list nor the arc's bit need be read, and the
    // bit at no time where the arc is known to be there.
    fn offer_most(&self, s: usize, most: u32, known: bool) -> Option<u32>
        requires s_in_bounds { s < count_of self.now }
        requires known_has { known ≡ true → has self.now.arcs s ≡ true }
        requires most_le_max_label { most ≤ max_label }
        ensures { result ≡ offer_below (most + 1) (offers self.now s) }
    {
        let less = total(self.labels[s], self.costs[s]);
        if u64::from(most) <= less {
            return None;
        }
        let list = self.lists[s];
        if list == 0 {
            return None;
        }
        if ancestors::listed(list, self.receiver) {
            return None;
        }
        if known || present(self.arcs, s as u32) {
            return Some(less as u32 + 1);
        }
        None
    }

    // Of the senders that offer the least sum, that of fewest ones, and then the lowest. Ones are counted only if the least sum was met again.
    fn fewest_ones(&self, kept: Kept) -> usize
        requires passed { Passed self.now (count_of self.now) kept }
        requires offered { kept.most < max_label }
        ensures { Wins self.now kept.most result }
    {
        let mut from = kept.from;
        if kept.last <= from {
            return from;
        }
        let least = kept.most as u32 + 1;
        let mut fewest = ancestors::count_nodes(self.lists[from]);
        for s in kept.from + 1..kept.last + 1 {
            let Some(_) = self.offer_most(s, least, false) else {
                continue;
            };
            let nodes = ancestors::count_nodes(self.lists[s]);
            let fewer = nodes < fewest;
            if fewer {
                from = s;
                fewest = nodes;
            }
        }
        from
    }

    // Passes one sender, whose arc may be known to be there. Sums are compared less one.
    fn pass_sender(&self, s: usize, kept: Kept, known: bool) -> Kept
        requires s_in_bounds { s < count_of self.now }
        requires known_has { known ≡ true → has self.now.arcs s ≡ true }
        requires passed { Passed self.now s kept }
        ensures { Passed self.now (s + 1) result }
    {
        let held = total(self.labels[s], self.costs[s]);
        if kept.most <= held {
            if held == kept.most {
                return Kept {
                    most: kept.most,
                    from: kept.from,
                    last: s,
                };
            }
            return kept;
        }
        let Some(sum) = self.offer_most(s, kept.most as u32, known) else {
            return kept;
        };
        Kept {
            most: u64::from(sum - 1),
            from: s,
            last: kept.last,
        }
    }

    // Passes the senders: from arc to arc among few senders and where no three beside each other have one, and else all one by one, which takes less
    // time for each.
    // Two loops and not one over an iterator: what that would ask of its iterator is longer than both. From arc to arc alone is slower in a full network.
    fn pass_all(&self) -> Kept
        ensures { Passed self.now (count_of self.now) result }
    {
        let n = self.costs.len();
        let mut kept = Kept {
            most: u64::from(network::MAX_LABEL),
            from: 0,
            last: 0,
        };
        let pairs = self.arcs & (self.arcs >> 1);
        if FEW < n && pairs & (pairs >> 1) != 0 {
            for s in 0..n {
                kept = self.pass_sender(s, kept, false);
            }
            return kept;
        }
        for s in ancestors::nodes_of(ancestors::below(self.arcs, n as u32)) {
            kept = self.pass_sender(s as usize, kept, true);
        }
        kept
    }

    // The row of the least offer.
    fn least_offer(&self) -> Option<Route>
        ensures { route_means result ≡ row_chosen self.now }
    {
        let kept = self.pass_all();
        let most = kept.most as u32;
        if network::MAX_LABEL <= most {
            return None;
        }
        let from = self.fewest_ones(kept);
        Some(Route {
            label: most + 1,
            predecessor: from as u32,
            list: ancestors::joined(self.lists[from], self.receiver),
        })
    }
}

// The row that a receiver chooses from its arcs as a word, the words of their costs and the reports that it holds, by sender.
pub fn choose(
    arcs: u32,
    costs: &[u32],
    labels: &[u32],
    lists: &[u32],
    receiver: u32,
) -> Result<Option<Route>, Fault>
    ensures { choice_means result ≡ choose_of arcs costs.now labels.now lists.now receiver }
{
    let n = costs.len();
    if network::NODES < n
        || labels.len() != n
        || lists.len() != n
        || network::MAX_NODES <= receiver
    {
        return Err(Fault::Range);
    }
    let senders = Senders {
        arcs,
        costs,
        labels,
        lists,
        receiver,
    };
    Ok(senders.least_offer())
}
