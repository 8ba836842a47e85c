// The trie of the left sides, a node for each state. The nodes stand in a lent array and name each other by index: the library
// has no heap, and its memory is fixed. They are lent as a plain slice: a struct around it would be no plainer, since each
// contract would say that it holds the same slice still, and what is known of the nodes changes from step to step. What its
// functions ask, compile and check of the crate table have shown: it is the only one that calls them.
#![tactic(auto)]

ghost use Rattle.std.specs.Prelude.{◌+◌, ◌*◌, ◌<◌, ◌≤◌, ◌≡◌, ◌≢◌, length, replicate};
ghost use Rattle.layout.specs.Places.{left_at};
ghost use Rattle.layout.specs.States.{states_most};
ghost use Rattle.image.specs.Sets.{set_of};
ghost use Rattle.trie.specs.Nodes.{
  unused,
  parent,
  symbol,
  depth,
  children,
  failure,
  failure_by,
  Linked,
  ChildOr,
  added,
  Followed,
  claimed,
  first_node,
  planted,
  states_of,
  Grown,
  FollowedRule,
  Roomy,
  Built,
};

use image::Rooted;

pub mod rows;

// A node. Its links youngest and older name no node where they are 0, as a match word names no rule, which is the table's form:
// in a fixed array an `Option` of each would make every node larger.
#[derive(Clone, Copy)]
pub struct Node {
    // the node of the state without its last symbol, and that symbol
    pub parent: u16,
    pub symbol: u16,
    // how many symbols the state has
    pub depth: u16,
    // its youngest child, its parent's next older child, and how many children it has
    pub youngest: u16,
    pub older: u16,
    pub children: u16,
    // match word: first of the rules whose left side is the state itself, in the end the table's
    pub matched: u16,
    // its failure state, once it is known
    pub failure: u16,
}

impl Node {
    pub const UNUSED: Self = Node {
        parent: 0,
        symbol: 0,
        depth: 0,
        youngest: 0,
        older: 0,
        children: 0,
        matched: 0,
        failure: 0,
    };
}

// The bound on the number of states, and a bound for a small rule set.
pub const NODES: usize = 514;

pub const FEW_NODES: usize = 64;

// Where a walk has come to, and the number of nodes.
#[derive(Clone, Copy)]
pub struct Walked {
    pub node: usize,
    pub nodes: usize,
}

// The failure state of node q, by the failure state of its parent and the row of that: the root for a child of the root.
pub fn failure_of(trie: &[Node], rows: &[u16], s: usize, root: usize, q: usize) -> usize
    requires node { q < length trie.now }
    requires up { parent trie.now q < length trie.now }
    requires row { parent trie.now q ≢ root → failure trie.now (parent trie.now q) * s + symbol trie.now q < length rows.now }
    ensures { result ≡ failure_by trie.now rows.now s root q }
{
    let p = usize::from(trie[q].parent);
    if p == root {
        return root;
    }
    let a = usize::from(trie[q].symbol);
    let f = usize::from(trie[p].failure);
    usize::from(rows[f * s + a])
}

// The child of node q by symbol a. The root and the number of nodes are named for the contract alone. The loop follows links,
// which are no items of anything.
fn child(trie: &[Node], root: usize, n: usize, q: usize, a: u16) -> Option<usize>
    requires links { Linked root trie.now n }
    requires node { q < n }
    ensures { ChildOr root trie.now n q a result }
{
    let mut c = usize::from(trie[q].youngest);
    while 0 < c {
        if trie[c].symbol == a {
            return Some(c);
        }
        c = usize::from(trie[c].older);
    }
    None
}

// Node n becomes a child of q by symbol a. Three fields of q are read, and no others, before both stores: behind a store a
// check takes up to 6 per cent longer, and with the whole node read at once, which waits for the stores of the step before, 1
// to 10.
fn add(trie: &mut [Node], n: usize, q: usize, a: u16)
    requires node { (q < n) × (n < states_most) }
    requires room { n < length trie.old }
    requires counts { (depth trie.old q < states_most) × (children trie.old q < states_most) }
    ensures { trie.new ≡ added trie.old n q a }
{
    let Node {
        depth,
        youngest,
        children,
        ..
    } = trie[q];
    trie[n] = Node {
        parent: q as u16,
        symbol: a,
        depth: depth + 1,
        older: youngest,
        ..trie[n]
    };
    trie[q] = Node {
        youngest: n as u16,
        children: children + 1,
        ..trie[q]
    };
}

// The child of node q by symbol a, added where there is none.
fn follow(trie: &mut [Node], root: usize, n: usize, q: usize, a: u16) -> Walked
    requires links { Linked root trie.old n }
    requires node { (q < n) × (n < states_most) }
    requires room { n < length trie.old }
    requires counts { (depth trie.old q < states_most) × (children trie.old q < states_most) }
    ensures { Followed root trie.old n q a result trie.new }
{
    if let Some(c) = child(trie, root, n, q, a) {
        return Walked { node: c, nodes: n };
    }
    add(trie, n, q, a);
    Walked {
        node: n,
        nodes: n + 1,
    }
}

// Rule i becomes the rule of node q, unless a lower rule has it already.
fn claim(trie: &mut [Node], q: usize, i: usize)
    requires node { q < length trie.old }
    requires rule { i < 64 }
    ensures { trie.new ≡ claimed trie.old q i }
{
    if trie[q].matched == 0 {
        trie[q].matched = (i + 1) as u16;
    }
}

// The node that the left side of rule i is followed from: 0, the mark's, where it has the mark, which makes the root 1.
#[tactic(auto, unfolding(crate::specs::Nodes::first_node))]
fn first_node(rooted: Rooted<'_>, i: usize) -> usize
    requires { i < length (set_of rooted.image).rules }
    ensures { result ≡ first_node (set_of rooted.entry.image) i }
{
    if rooted.image.marked(i) {
        0
    } else {
        rooted.root
    }
}

// Follows the left side of rule i, which begins at byte `at`, in the trie of the n states of the rules before it: from the mark's
// node where the rule has the mark, else from the root.
fn walk(rooted: Rooted<'_>, i: usize, at: usize, trie: &mut [Node], n: usize) -> Walked
    requires rule { (i < length (set_of rooted.image).rules) × (at ≡ left_at (set_of rooted.image) i) }
    requires trie { (Grown (set_of rooted.image) i trie.old) × (Roomy (set_of rooted.image) (length trie.old)) }
    requires nodes { n ≡ length (states_of (set_of rooted.image) i) }
    ensures { (FollowedRule (set_of rooted.entry.image) i result trie.new) × (length trie.new ≡ length trie.old) }
{
    let long = rooted.image.left_length(i);
    let mut q = first_node(rooted, i);
    let mut nodes = n;
    for &a in &rooted.image.bytes[at..at + long] {
        let w = follow(trie, rooted.root, nodes, q, u16::from(a));
        q = w.node;
        nodes = w.nodes;
    }
    Walked { node: q, nodes }
}

// Node 0 for the mark alone: node 1, the root, is its parent and its failure state.
fn plant(trie: &mut [Node])
    requires room { 0 < length trie.old }
    ensures { trie.new ≡ planted 1 trie.old }
{
    trie[0] = Node {
        parent: 1,
        depth: 1,
        failure: 1,
        ..trie[0]
    };
}

// The nodes before any rule, where none is in use. Without a mark nothing is written.
pub fn begin(rooted: Rooted<'_>, trie: &mut [Node])
    requires { (trie.old ≡ replicate (length trie.old) unused) × (Roomy (set_of rooted.image) (length trie.old)) }
    ensures { (Grown (set_of rooted.entry.image) 0 trie.new) × (length trie.new ≡ length trie.old) }
{
    if 0 < rooted.root {
        plant(trie);
    }
}

// The trie of all left sides, from the first nodes on, and the number of its nodes. By number: it is what is handed on to the
// walk and kept in the node, and nothing else of a rule is needed in a turn.
pub fn build(rooted: Rooted<'_>, trie: &mut [Node]) -> usize
    requires { (Grown (set_of rooted.image) 0 trie.old) × (Roomy (set_of rooted.image) (length trie.old)) }
    ensures { Built (set_of rooted.entry.image) result trie.new }
{
    let rules = rooted.image.rules();
    let mut n = rooted.root + 1;
    let mut at = 4 + 4 * rules;
    for i in 0..rules {
        let w = walk(rooted, i, at, trie, n);
        claim(trie, w.node, i);
        n = w.nodes;
        at += rooted.image.body_length(i);
    }
    n
}
