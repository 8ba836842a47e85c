// The check behind refusal 11: whether head and areas are as document 01 describes them. What it asks, the checks of 7, 9 and 10
// have shown.
ghost use Rattle.std.specs.Prelude.{◌*◌, ◌≤◌, ◌≡◌, true, length, replicate};
ghost use Rattle.layout.specs.ImageCheck.{Decides};
ghost use Rattle.machine.specs.Areas.{stands_by, described};
ghost use Rattle.machine.specs.Lent.{monitor_with, Settled};
ghost use Rattle.image.specs.Sets.{set_of};
ghost use Rattle.areas.specs.Bits.{Gathers, or_gathers};
ghost use lib.Bits.{bit_or};

use crate::held;
use crate::rules::Table;
use image::Image;
use layout::RightSide;

// Unsigned numbers, whose bits `or` gathers: it is 0 where both numbers are, and nowhere else.
trait Bits: Copy {
    ghost zero: { Self };

    ghost or_of: { Self → Self → Self };

    fn zero() -> Self
        ensures { result ≡ zero };

    fn or(self, other: Self) -> Self
        ensures { result ≡ or_of self other };

    fn is_zero(self) -> bool
        ensures { Decides result (self ≡ zero) };

    ghost gathers: { Gathers zero or_of };
}

impl Bits for u8 {
    ghost zero = { 0 };

    ghost or_of = { bit_or };

    ghost gathers = { or_gathers };

    fn zero() -> u8 {
        0
    }

    fn or(self, other: u8) -> u8 {
        self | other
    }

    fn is_zero(self) -> bool {
        self == 0
    }
}

impl Bits for u16 {
    ghost zero = { 0 };

    ghost or_of = { bit_or };

    ghost gathers = { or_gathers };

    fn zero() -> u16 {
        0
    }

    fn or(self, other: u16) -> u16 {
        self | other
    }

    fn is_zero(self) -> bool {
        self == 0
    }
}

// A quarter of n, rounded up to a multiple of 32: a loop of so many turns becomes vector code with nothing left over. From 384 on
// three of them fit into n.
fn quarter(n: usize) -> usize
    requires { 384 ≤ n }
    ensures inside { 3 * result ≤ n }
    ensures all { n ≤ 4 * result }
{
    (n - 1) / 128 * 32 + 32
}

// Whether all numbers are 0, one after another, where they are too few for quarters.
fn few_zero<T: Bits>(items: &[T]) -> bool
    ensures { Decides result (items.now ≡ replicate (length items.now) T.zero) }
{
    let mut all = T::zero();
    for x in items {
        all = all.or(*x);
    }
    all.is_zero()
}

// Whether all numbers are 0: three quarters from the start, and one that ends with the numbers, where some may be looked at
// twice. A turn takes a number of each, so that the strides are wide, and the loop has no other way out. Places are counted,
// since a loop over the four quarters side by side does not become vector code and takes four times as long.
fn all_zero<T: Bits>(items: &[T]) -> bool
    ensures { Decides result (items.now ≡ replicate (length items.now) T.zero) }
{
    if items.len() < 384 {
        return few_zero(items);
    }
    let size = quarter(items.len());
    let third = size + size;
    let last = items.len() - size;
    let mut all = T::zero();
    for i in 0..size {
        all = all.or(
            items[i]
                .or(items[size + i])
                .or(items[third + i])
                .or(items[last + i]),
        );
    }
    all.is_zero()
}

// Whether the verdict is that of its rule; with none the rule is 0.
fn stands_by(image: Image<'_>, verdict: Option<u64>, rule: usize) -> bool
    ensures { result ≡ stands_by (set_of image.entry).rules verdict rule }
{
    match verdict {
        None => rule == 0,
        Some(v) => {
            rule < image.rules()
                && match image.right_side(rule) {
                    RightSide::Put(_) => false,
                    RightSide::Close(u) => v == u,
                }
        }
    }
}

// Whether these are settled symbols and their words: each symbol below S, each word the state after its symbol, and none
// of the states has a match. Symbols come first, in a loop that becomes vector code. Each word is tested against the one lent
// before it, so that no turn waits for the one before. A loop over symbols and words side by side takes up to a fifth longer.
fn settled_right(table: Table<'_>, symbols: &[u8], words: &[u16]) -> bool
    requires { length words.now ≡ length symbols.now }
    ensures { Decides result (Settled (set_of table.entry.image) symbols.now words.now) }
{
    if !validity::all_below(symbols, table.image.bytes[0]) {
        return false;
    }
    for (i, &symbol) in symbols.iter().enumerate() {
        let q = held::word_before(words, i);
        let next = table.next(q, usize::from(symbol));
        if usize::from(words[i]) != next {
            return false;
        }
        if table.match_word(next) != 0 {
            return false;
        }
    }
    true
}

// Whether head and areas are as described, with areas of one length. The head comes as its four values: its struct has methods,
// so it stands with them in the crate monitor, above this one.
pub fn as_described(
    settled: usize,
    waiting: usize,
    verdict: Option<u64>,
    rule: usize,
    table: Table<'_>,
    bytes: &[u8],
    words: &[u16],
) -> bool
    requires { length words.now ≡ length bytes.now }
    ensures { result ≡ described (set_of table.entry.image) (length bytes.now)
        (monitor_with settled waiting verdict rule bytes.now words.now) }
{
    let capacity = bytes.len();
    if capacity < settled {
        return false;
    }
    if capacity - settled < waiting {
        return false;
    }
    let first = capacity - waiting;
    if !stands_by(table.image, verdict, rule) {
        return false;
    }
    if !settled_right(table, &bytes[..settled], &words[..settled]) {
        return false;
    }
    if !all_zero(&bytes[settled..first]) {
        return false;
    }
    if !validity::all_below(&bytes[first..], table.image.bytes[0]) {
        return false;
    }
    all_zero(&words[settled..])
}
