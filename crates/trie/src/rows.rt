// The rows and match words of the table, filled from the trie. specs/Rows.antt says what stands in them on the way.
// What its functions ask, compile has shown. Nodes and rows are lent beside each other: a struct of both would
// be no plainer, since clauses would name each of them all the same.
ghost use Rattle.std.specs.Prelude.{◌+◌, ◌*◌, ◌≤◌, ◌<◌, ◌≡◌, ◌≢◌, map, length, replicate, take};
ghost use Rattle.layout.specs.States.{states};
ghost use Rattle.layout.specs.Words.{Longest, own_or};
ghost use Rattle.image.specs.Sets.{set_of};
ghost use Rattle.trie.specs.Nodes.{depth, TrieOf, Built};
ghost use Rattle.trie.specs.Rows.{Laid, RootFilled, Merged, noted, FillingAt, Filled};

use crate::{Node, failure_of};
use image::{Image, Rooted};

// Each node's number into the row of its parent, from the first behind the root on.
fn lay_children(rooted: Rooted<'_>, trie: &[Node], rows: &mut [u16])
    requires trie { TrieOf (set_of rooted.image) trie.now }
    requires count { length trie.now ≡ length (states (set_of rooted.image).rules) }
    requires clear { rows.old ≡ replicate (length trie.now * (set_of rooted.image).symbols) 0 }
    ensures { Laid (set_of rooted.entry.image) rows.new }
{
    let s = rooted.image.symbols();
    for (c, node) in trie.iter().enumerate().skip(rooted.root + 1) {
        let p = usize::from(node.parent);
        let a = usize::from(node.symbol);
        rows[p * s + a] = c as u16;
    }
}

// A word, or another in its place where it is 0. As a function of its own it becomes a choice without a branch, so that
// merge takes many words at once.
fn chosen(own: u16, other: u16) -> u16
    ensures { result ≡ own_or own other }
{
    if own == 0 { other } else { own }
}

// Each 0 in the row of the root becomes the root's number. Where that is 0 there is nothing to do. It is not one function with
// merge, which takes its words from another row of the same slice.
fn fill_root(rows: &mut [u16], s: usize, root: usize)
    requires own { root * s + s ≤ length rows.old }
    requires low { root ≤ 1 }
    ensures { RootFilled rows.old rows.new s root s }
{
    let first = root * s;
    for word in &mut rows[first..first + s] {
        *word = chosen(*word, root as u16);
    }
}

// Each 0 in the row of q becomes the word of the row of f. By index: both rows lie in one slice, which an iterator would hold.
fn merge(rows: &mut [u16], s: usize, q: usize, f: usize)
    requires own { q * s + s ≤ length rows.old }
    requires other { f * s + s ≤ length rows.old }
    ensures { Merged rows.old rows.new s q f s }
{
    let to = q * s;
    let from = f * s;
    for a in 0..s {
        rows[to + a] = chosen(rows[to + a], rows[from + a]);
    }
}

// The failure state f of node q and, where q has no match word of its own, that of f.
fn note(trie: &mut [Node], q: usize, f: usize)
    requires own { q < length trie.old }
    requires other { f < length trie.old }
    requires small { f < 65536 }
    ensures { trie.new ≡ noted trie.old q f }
{
    let other = trie[f].matched;
    trie[q] = Node {
        matched: chosen(trie[q].matched, other),
        failure: f as u16,
        ..trie[q]
    };
}

// State q, whose turn it is: its failure state, match word and row.
fn fill_state(rooted: Rooted<'_>, trie: &mut [Node], rows: &mut [u16], q: usize)
    requires state { (q ≢ rooted.root) × (q < length (states (set_of rooted.image).rules)) }
    requires filling { FillingAt (set_of rooted.image) (depth trie.old q) q trie.old rows.old }
    ensures { FillingAt (set_of rooted.entry.image) (depth trie.old q) (q + 1) trie.new rows.new }
{
    let s = rooted.image.symbols();
    let f = failure_of(trie, rows, s, rooted.root, q);
    note(trie, q, f);
    merge(rows, s, q, f);
}

// The states of depth d, whose turn it is. By index: a turn takes all nodes, which an iterator would hold.
fn fill_depth(rooted: Rooted<'_>, trie: &mut [Node], rows: &mut [u16], d: u16)
    requires count { length trie.old ≡ length (states (set_of rooted.image).rules) }
    requires some { 0 < d }
    requires filling { FillingAt (set_of rooted.image) d 0 trie.old rows.old }
    ensures { FillingAt (set_of rooted.entry.image) (d + 1) 0 trie.new rows.new }
{
    for q in 0..trie.len() {
        if trie[q].depth == d {
            fill_state(rooted, trie, rows, q);
        }
    }
}

// The number of symbols of the longest left side. Over `(0..image.rules()).map(..).max()` the proof does not close: the law of
// the chain asks what the closure gives at any number, and its contract tells that of a rule's number alone.
fn longest(image: Image<'_>) -> usize
    ensures { (result ≤ 8) × Longest result (set_of image.entry).rules }
{
    let mut most = 0;
    for i in 0..image.rules() {
        most = most.max(image.left_length(i));
    }
    most
}

// The rows of the table, and its match words in the nodes: short states before long, as a failure state is shorter. A state has
// at most the symbols of the longest left side, and the mark where there is one. The loop counts depths, which are items of
// nothing.
fn fill_rows(rooted: Rooted<'_>, trie: &mut [Node], rows: &mut [u16])
    requires trie { Built (set_of rooted.image) (length trie.old) trie.old }
    requires room { length rows.old ≡ length (states (set_of rooted.image).rules) * (set_of rooted.image).symbols }
    ensures { Filled (set_of rooted.entry.image) trie.old trie.new rows.new }
{
    rows.fill(0);
    lay_children(rooted, trie, rows);
    if 0 < rooted.root {
        fill_root(rows, rooted.image.symbols(), rooted.root);
    }
    let end = longest(rooted.image) + rooted.root + 1;
    for d in 1..end as u16 {
        fill_depth(rooted, trie, rows, d);
    }
}

// The rows of the table, and its match words in the first n of the nodes: more may be lent than there are states.
pub fn fill(rooted: Rooted<'_>, trie: &mut [Node], n: usize, rows: &mut [u16])
    requires trie { Built (set_of rooted.image) n trie.old }
    requires room { length rows.old ≡ length (states (set_of rooted.image).rules) * (set_of rooted.image).symbols }
    ensures { Filled (set_of rooted.entry.image) trie.old trie.new rows.new }
{
    fill_rows(rooted, &mut trie[..n], rows);
}

// The match words from the nodes, as many as there are words. Over `words.iter_mut().zip(trie)` it gets no proof: nothing is
// known of what is written through an adapter of `iter_mut` but `enumerate`.
pub fn write_matches(trie: &[Node], words: &mut [u16])
    requires { length words.old ≤ length trie.now }
    ensures { words.new ≡ map (λ x. x.matched) (take (length words.old) trie.now) }
{
    for (q, word) in words.iter_mut().enumerate() {
        *word = trie[q].matched;
    }
}
