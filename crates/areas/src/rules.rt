// What the steps of a call work by: the image, its table, and where each rule's right symbols begin. A look into them costs a
// step no test: what it asks, the checks of a call have shown, and what they have shown of the table and the starts is in the
// types.
ghost use Rattle.std.specs.Prelude.{◌+◌, ◌*◌, ◌<◌, ◌≤◌, ◌≡◌, true, length, get_or};
ghost use Rattle.rewriting.specs.Lists.{prefix};
ghost use Rattle.layout.specs.Image.{read};
ghost use Rattle.layout.specs.Places.{right_at};
ghost use Rattle.layout.specs.Table.{table_of};
ghost use Rattle.machine.specs.Lent.{rows_in, width_in, match_in, Starts};

use crate::held;
use image::Image;

// An image and words that begin with its table, where the table's rows begin, and how many words each has: a step does not look
// them up again.
#[derive(Clone, Copy)]
pub struct Table<'a> {
    pub image: Image<'a>,
    pub words: &'a [u16],
    pub rows: usize,
    pub width: usize,
    pub ghost right: { prefix (table_of (read image.bytes.now)) words.now ≡ true },
    pub ghost rows_first: { rows ≡ rows_in words.now },
    pub ghost row_width: { width ≡ width_in words.now },
}

// The same with the place where each rule's right symbols begin, so that a step need not go through the rules before its own.
#[derive(Clone, Copy)]
pub struct Rules<'a> {
    pub table: Table<'a>,
    pub starts: &'a [u16],
    pub ghost indexed: { Starts table.image.bytes.now starts.now },
}

// The next state of q on symbol a, in words in which rows of so many words each begin at `rows`. This look and the next ask
// nothing of the words but the place.
pub fn next_at(words: &[u16], rows: usize, width: usize, q: usize, a: usize) -> usize
    requires { rows + q * width + a < length words.now }
    ensures { result ≡ get_or words.now (rows + q * width + a) 0 }
{
    usize::from(words[rows + q * width + a])
}

// The match word of state q: a word of the table, 0 where no rule matches, else 1 + the rule.
pub fn match_word(words: &[u16], q: usize) -> usize
    requires { 2 + q < length words.now }
    ensures { result ≡ match_in words.now q }
{
    usize::from(words[2 + q])
}

impl<'a> Table<'a> {
    // The table that these words begin with.
    pub fn new(image: Image<'a>, words: &'a [u16]) -> Self
        requires { prefix (table_of (read image.bytes.now)) words.now ≡ true }
        ensures image { result.image.bytes.now ≡ image.entry.bytes.now }
        ensures words { result.words.now ≡ words.now }
    {
        Table {
            image,
            words,
            rows: 2 + usize::from(words[0]),
            width: usize::from(words[1]),
        }
    }

    // The next state of q on symbol a.
    pub fn next(self, q: usize, a: usize) -> usize
        requires { self.rows + q * self.width + a < length self.words.now }
        ensures { result ≡ get_or self.entry.words.now (self.entry.rows + q * self.entry.width + a) 0 }
    {
        next_at(self.words, self.rows, self.width, q, a)
    }

    // The match word of state q.
    pub fn match_word(self, q: usize) -> usize
        requires { 2 + q < length self.words.now }
        ensures { result ≡ match_in self.entry.words.now q }
    {
        match_word(self.words, q)
    }
}

impl<'a> Rules<'a> {
    // The rules of a table, with the places of their right symbols written into `starts`.
    pub fn new(table: Table<'a>, starts: &'a mut [u16; 64]) -> Self
        ensures image { result.table.image.bytes.now ≡ table.entry.image.bytes.now }
        ensures words { result.table.words.now ≡ table.entry.words.now }
    {
        held::index(table.image, starts);
        Rules { table, starts }
    }

    // Where rule i's right symbols begin in the image.
    pub fn start(self, i: usize) -> usize
        requires { i < length (read self.table.image.bytes.now).rules }
        ensures { result ≡ right_at (read self.entry.table.image.bytes.now) i }
    {
        usize::from(self.starts[i])
    }
}
