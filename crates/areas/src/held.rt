// Looks into the two areas and writes to them. They ask that their places are inside, which the checks of a call have shown: a
// test in each would cost at every step.
ghost use Rattle.std.specs.Prelude.{◌+◌, ◌*◌, ◌-◌, ◌≤◌, ◌<◌, ◌≡◌, true, length, get_or, set, drop, replicate};
ghost use Rattle.std.proofs.Math.Seq.{paste};
ghost use Rattle.machine.specs.Lent.{word_before, Starts};
ghost use Rattle.image.specs.Sets.{set_of};

use image::Image;

// The word before the next one, where n words are in use: 0 at the start.
pub fn word_before(words: &[u16], n: usize) -> usize
    requires { n ≤ length words.now }
    ensures { result ≡ word_before words.now n }
{
    if n == 0 {
        return 0;
    }
    usize::from(words[n - 1])
}

// Sets bytes and words from .. to to 0.
pub fn clear(bytes: &mut [u8], words: &mut [u16], from: usize, to: usize)
    requires order { from ≤ to }
    requires bytes { to ≤ length bytes.old }
    requires words { to ≤ length words.old }
    ensures bytes { bytes.new ≡ paste bytes.old from (replicate (to - from) 0) (to - from) }
    ensures words { words.new ≡ paste words.old from (replicate (to - from) 0) (to - from) }
{
    bytes[from..to].fill(0);
    words[from..to].fill(0);
}

// Takes a left side of `size` symbols off: the first waiting symbol, which completes it, and the settled ones before it. Gives
// back how many stay settled. What a step finds next waits for that number: the loop counts down to it by tests, which a
// processor foresees, and its constant bound makes them a few instructions in a row. With `fill` a batch takes up to an eighth
// longer.
pub(crate) fn take_off(
    bytes: &mut [u8],
    words: &mut [u16],
    first: usize,
    settled: usize,
    size: usize,
) -> usize
    requires first { first < length bytes.old }
    requires some { 1 ≤ size }
    requires few { size ≤ 8 }
    requires order { size ≤ settled + 1 }
    requires bytes { settled ≤ length bytes.old }
    requires words { settled ≤ length words.old }
    ensures kept { result ≡ settled + 1 - size }
    ensures bytes { bytes.new ≡ paste (set bytes.old first 0) result (replicate (settled - result) 0) (settled - result) }
    ensures words { words.new ≡ paste words.old result (replicate (settled - result) 0) (settled - result) }
{
    bytes[first] = 0;
    let mut at = settled;
    for k in 1..8 {
        if size <= k {
            break;
        }
        at -= 1;
        bytes[at] = 0;
        words[at] = 0;
    }
    at
}

// Puts n symbols of the image, from `start` on, before the last `waiting` bytes. Gives back how many wait then. The last one goes
// first, so that this number comes from the loop's tests too, as in take_off: where the next symbol stands does not wait for n,
// as it would with `copy_from_slice`: a go-on over 1,000 waiting symbols then takes half as long again.
pub(crate) fn put_back(
    image: Image<'_>,
    start: usize,
    n: usize,
    bytes: &mut [u8],
    waiting: usize,
) -> usize
    requires few { n ≤ 8 }
    requires source { start + n ≤ length image.bytes.now }
    requires target { waiting + n ≤ length bytes.old }
    ensures waiting { result ≡ waiting + n }
    ensures bytes { bytes.new
        ≡ paste bytes.old (length bytes.old - (waiting + n)) (drop start image.entry.bytes.now) n }
{
    let capacity = bytes.len();
    let end = start + n;
    let mut held = waiting;
    for k in 0..8 {
        if n <= k {
            break;
        }
        held += 1;
        bytes[capacity - held] = image.bytes[end - 1 - k];
    }
    held
}

// Moves the bytes from `from` to the end one place to the left.
pub fn move_left(bytes: &mut [u8], from: usize)
    requires some { 1 ≤ from }
    requires inside { from ≤ length bytes.old }
    ensures { bytes.new
        ≡ paste bytes.old (from - 1) (drop from bytes.old) (length bytes.old - from) }
{
    bytes.copy_within(from.., from - 1);
}

// Where each rule's right symbols begin, so that a step need not go through the rules before its own.
pub fn index(image: Image<'_>, starts: &mut [u16])
    requires { length (set_of image).rules ≤ length starts.old }
    ensures { Starts image.entry.bytes.now starts.new }
{
    let rules = image.rules();
    let mut at = 4 + 4 * rules;
    for (i, start) in starts[..rules].iter_mut().enumerate() {
        *start = (at + image.left_length(i)) as u16;
        at += image.body_length(i);
    }
}
