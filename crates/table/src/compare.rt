// The check of a lent table, in place: each state against its parent, its failure state and its node of the trie. It
// holds exactly where the table is the one that compile writes (specs/Consistent.antt has the tests).
// The module is private: what its functions ask, check has shown.
ghost use Rattle.std.specs.Prelude.{ℕ, ◌+◌, ◌*◌, ◌≤◌, ◌<◌, ◌≡◌, length, get_or};
ghost use Rattle.layout.specs.ImageCheck.{Decides};
ghost use Rattle.rewriting.specs.Lists.{prefix};
ghost use Rattle.layout.specs.States.{states};
ghost use Rattle.layout.specs.Table.{table_of};
ghost use Rattle.image.specs.Sets.{set_of};
ghost use Rattle.trie.specs.Nodes.{parent, symbol, matched, failure, Built};
ghost use Rattle.layout.specs.Words.{transition, own_or};
ghost use Rattle.table.specs.Consistent.{unlike, differing, leaving, Passes, RootPassed, MarkPassed, RightTable};

use image::Rooted;
use trie::{Node, failure_of};

// The match words and the rows of a lent table, as many as the image's table has, and how many words a row has. The facts beside
// them are said once, for all tests.
#[derive(Clone, Copy)]
struct Parts<'a> {
    rooted: Rooted<'a>,
    matches: &'a [u16],
    rows: &'a [u16],
    width: usize,
    ghost wide: { width ≡ (set_of rooted.image).symbols },
    ghost few: { width ≤ 32 },
    ghost low: { rooted.root ≤ 1 },
    ghost words: { length matches.now ≡ length (states (set_of rooted.image).rules) },
    ghost lines: { length matches.now * width ≡ length rows.now },
    ghost rooted_inside: { rooted.root < length matches.now },
}

impl Parts<'_> {
    // How many words of the row of q differ from those that `word` gives. The loop counts to the end, so that it compares many
    // words at once. By index: over the items of the rows the check of a table takes up to a tenth longer, and with `filter` and
    // `count` four times as long.
    fn unlike<F: Fn(usize) -> u16>(self, q: usize, word: F) -> u16
        requires row { q < length self.matches.now }
        requires asked { (a : ℕ) → a < self.width → F.pre word a }
        ensures { (other : ℕ → ℕ) → ((a r : ℕ) → a < self.entry.width → F.post word a r → r ≡ other a)
            → result ≡ unlike self.entry.rows.now self.entry.width q other }
    {
        let own = q * self.width;
        let mut n: u16 = 0;
        for a in 0..self.width {
            if self.rows[own + a] != word(a) {
                n += 1;
            }
        }
        n
    }

    // How many words of the rows of q and f differ. Where a row begins is worked out once, before the loop.
    fn differences(self, q: usize, f: usize) -> u16
        requires { (q < length self.matches.now) × (f < length self.matches.now) }
        ensures { result ≡ differing self.entry.rows.now self.entry.width q f }
    {
        let other = f * self.width;
        self.unlike(q, |a| self.rows[other + a])
    }

    // How many words of the root's row lead away from it.
    fn transitions(self) -> u16
        ensures { result ≡ leaving self.entry.rows.now self.entry.width self.entry.rooted.root }
    {
        let root = self.rooted.root as u16;
        self.unlike(self.rooted.root, |_| root)
    }

    // The state that the parent of node q leads to by q's symbol.
    fn led_to(self, trie: &[Node], q: usize) -> usize
        requires node { q < length trie.now }
        requires row { parent trie.now q * self.width + symbol trie.now q < length self.rows.now }
        ensures { result ≡ transition self.entry.rows.now self.entry.width (parent trie.now q) (symbol trie.now q) }
    {
        let p = usize::from(trie[q].parent);
        let a = usize::from(trie[q].symbol);
        usize::from(self.rows[p * self.width + a])
    }

    // The match word that node q should have: its own, or else its failure state's.
    fn inherited(self, trie: &[Node], q: usize) -> u16
        requires node { q < length trie.now }
        requires word { failure trie.now q < length self.matches.now }
        ensures { result ≡ own_or (matched trie.now q) (get_or self.entry.matches.now (failure trie.now q) 0) }
    {
        let own = trie[q].matched;
        if own == 0 {
            self.matches[usize::from(trie[q].failure)]
        } else {
            own
        }
    }

    // The tests of the root.
    fn root_holds(self, trie: &[Node]) -> bool
        requires { self.rooted.root < length trie.now }
        ensures { Decides result
            (RootPassed trie.now self.entry.matches.now self.entry.rows.now self.entry.width self.entry.rooted.root) }
    {
        self.matches[self.rooted.root] == 0 && self.transitions() == trie[self.rooted.root].children
    }

    // The tests of the mark alone, which no state leads to: it has no match, and its row differs from the root's in as many words
    // as it has children.
    fn mark_holds(self, trie: &[Node]) -> bool
        requires { 0 < length trie.now }
        ensures { Decides result
            (MarkPassed trie.now self.entry.matches.now self.entry.rows.now self.entry.width self.entry.rooted.root) }
    {
        self.matches[0] == 0 && self.differences(0, self.rooted.root) == trie[0].children
    }

    // The tests of state q, which its parent leads to, and whose failure state its node holds.
    fn state_holds(self, trie: &[Node], q: usize) -> bool
        requires node { q < length trie.now }
        requires led { transition self.rows.now self.width (parent trie.now q) (symbol trie.now q) ≡ q }
        requires words { (q < length self.matches.now) × (failure trie.now q < length self.matches.now) }
        ensures { Decides result (Passes trie.now self.entry.matches.now self.entry.rows.now self.entry.width q) }
    {
        let f = usize::from(trie[q].failure);
        self.inherited(trie, q) == self.matches[q] && self.differences(q, f) == trie[q].children
    }

    // Every state's tests, in the order of their numbers, so that its parent and its parent's failure state are known when a
    // state is reached. Keeps each state's failure state in its node, after both looks at its parent, since the compiler reads a
    // word anew behind a store. By number: it is what the tests ask for, and a turn takes all nodes, which an iterator
    // would hold.
    fn states_hold(self, trie: &mut [Node]) -> bool
        requires { Built (set_of self.rooted.image) (length trie.old) trie.old }
        ensures { Decides result
            (RightTable (set_of self.entry.rooted.image).rules (set_of self.entry.rooted.image).symbols
            self.entry.matches.now self.entry.rows.now) }
    {
        let n = trie.len();
        let root = self.rooted.root;
        if !self.root_holds(trie) {
            return false;
        }
        if 0 < root {
            if !self.mark_holds(trie) {
                return false;
            }
        }
        for q in root + 1..n {
            let child = self.led_to(trie, q);
            if child != q {
                return false;
            }
            let f = failure_of(trie, self.rows, self.width, root, q);
            if f >= n {
                return false;
            }
            trie[q].failure = f as u16;
            if !self.state_holds(trie, q) {
                return false;
            }
        }
        true
    }
}

// Whether the table begins with the words that compile gives for the image, by the trie of its states: N, S, and every
// state's tests. Keeps each state's failure state in its node of the trie.
pub(crate) fn holds(rooted: Rooted<'_>, trie: &mut [Node], table: &[u16]) -> bool
    requires { Built (set_of rooted.image) (length trie.old) trie.old }
    ensures { result ≡ prefix (table_of (set_of rooted.entry.image)) table.now }
{
    let n = trie.len();
    let s = rooted.image.symbols();
    let first = 2 + n;
    let end = first + n * s;
    if table.len() < end {
        return false;
    }
    if usize::from(table[0]) != n {
        return false;
    }
    if usize::from(table[1]) != s {
        return false;
    }
    let parts = Parts {
        rooted,
        matches: &table[2..first],
        rows: &table[first..end],
        width: s,
    };
    parts.states_hold(trie)
}
