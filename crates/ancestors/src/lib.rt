// Ancestor lists and other sets of nodes as 32-bit words: whether a node is listed, a list with a node more or less, its nodes below a number, whether
// it has a node that another list has not, its lowest node, its nodes one by one, how many nodes it has, and its hops.
//
// No function has a precondition: a node above 31 is in no list and joins none.
#![tactic(auto)]

ghost use Rattle.std.specs.Prelude.{◌≡◌, cond, not, ◌%◌, ◌^◌, ltb};
ghost use Rattle.std.specs.Int.Count.{count_trailing_zeros};
ghost use Rattle.std.specs.Iterator.{at_most};
ghost use Rattle.ancestors.specs.Ancestors.{has, put, cut, inside, hops, count, Steps};

// Whether the node is in the list.
pub fn listed(list: u32, node: u32) -> bool
    ensures { result ≡ has list node }
{
    if 32 <= node {
        return false;
    }
    (list >> node) & 1 == 1
}

// The list with the node.
pub fn joined(list: u32, node: u32) -> u32
    ensures { result ≡ cond (ltb node 32) (put list node) list }
{
    if 32 <= node {
        return list;
    }
    list | (1u32 << node)
}

// A list and a node stay two numbers: a list is a word of the network's memory (fixed memory). `left_out` and `below` have only their test's shape in
// common and answer other bits, so that one function for both would be no plainer.

// The list without the node.
pub fn left_out(list: u32, node: u32) -> u32
    ensures { result ≡ cond (ltb node 32) (cut list node) list }
{
    if 32 <= node {
        return list;
    }
    list ^ (list & (1u32 << node))
}

// The nodes of the list below k.
pub fn below(list: u32, k: u32) -> u32
    ensures { result ≡ list % 2 ^ k }
{
    if 32 <= k {
        return list;
    }
    list & ((1u32 << k) - 1)
}

// Whether a node of the list is not in the other.
pub fn outside(list: u32, other: u32) -> bool
    ensures { result ≡ not (inside list other) }
{
    list & other != list
}

// The lowest node of the list; 32 for the empty list.
pub fn lowest(list: u32) -> u32
    ensures { result ≡ count_trailing_zeros 32 list }
{
    list.trailing_zeros()
}

// The nodes of a list that are not yet passed, lowest first. `Drop` alone: it is used up, and a copy would pass the nodes again.
#[derive(Drop)]
pub struct Nodes {
    left: u32,
}

// The nodes of the list one by one, lowest first.
pub fn nodes_of(list: u32) -> Nodes
    ensures { result.left ≡ list }
{
    Nodes { left: list }
}

impl Iterator for Nodes {
    type Item = u32;

    ghost next_gives = { λ s node t. Steps s.left node t.left };

    ghost remaining = { λ s. at_most (count (has s.left) 32) };

    fn next(&mut self) -> Option<u32> {
        if self.left == 0 {
            return None;
        }
        let node = lowest(self.left);
        self.left &= self.left - 1;
        Some(node)
    }
}

// The number of nodes in the list.
pub fn count_nodes(list: u32) -> u32
    ensures { result ≡ count (has list) 32 }
{
    list.count_ones()
}

// The number of ones in the list less one; 0 for the empty list.
pub fn count_hops(list: u32) -> u32
    ensures { result ≡ hops list }
{
    count_nodes(list).saturating_sub(1)
}
