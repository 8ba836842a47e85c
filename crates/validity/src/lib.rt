// The check of a rule image behind refusal 7.
#![tactic(auto)]

ghost use Rattle.std.specs.Prelude.{◌≤◌, ◌≡◌, ◌/◌, true, false, cond, length, MatchOption};
ghost use Rattle.rewriting.specs.Lists.{below};
ghost use Rattle.layout.specs.Image.{valid};
ghost use Rattle.layout.specs.ImageCheck.{Decides, Header, body_size, announces, marks_in};

use image::{Image, Rooted};

// Whether S, R, V and E are in range.
fn header_in_range(s: u8, r: u8, v: u8, e: u8) -> bool
    ensures { Decides result (Header s r v e) }
{
    (1..=32).contains(&s) && r <= 64 && (2..=16).contains(&v) && (1..=s).contains(&e)
}

// The number of symbols of the body that a rule's contents announce, where each byte of them is in range.
fn body_size(verdicts: u8, left: u8, kind: u8, n: u8, last: u8) -> Option<u8>
    ensures { MatchOption result (body_size verdicts left kind n last ≡ 0)
        (λ size. (1 ≤ size) × (size ≡ body_size verdicts left kind n last)) }
{
    if left < 1 || 8 < left || 1 < last {
        return None;
    }
    match kind {
        0 if n <= 8 => Some(left + n),
        1 if n < verdicts => Some(left),
        _ => None,
    }
}

// The number of the empty string's state, where the contents are in range and announce so many symbols: 1 where a rule has the
// mark, else 0.
fn root_of(contents: &[u8], verdicts: u8, symbols: usize) -> Option<usize>
    ensures { MatchOption result (announces verdicts (length contents.now / 4) contents.now symbols ≡ false)
        (λ root. (announces verdicts (length contents.now / 4) contents.now symbols ≡ true)
        × (root ≡ cond (marks_in (length contents.now / 4) contents.now) 1 0)) }
{
    let (rules, _) = contents.as_chunks::<4>();
    let mut unread = symbols;
    let mut root = 0;
    for [left, kind, n, last] in rules {
        let size = usize::from(body_size(verdicts, *left, *kind, *n, *last)?);
        if unread < size {
            return None;
        }
        unread -= size;
        if *last == 1 {
            root = 1;
        }
    }
    if unread == 0 { Some(root) } else { None }
}

// Whether each symbol is below s. The largest is kept and tested once: a loop with no other way out becomes vector code. It
// asks for an s above 0, as every image has: of no symbols the largest is taken to be 0.
pub fn all_below(symbols: &[u8], s: u8) -> bool
    requires { 1 ≤ s }
    ensures { result ≡ below s symbols.now }
{
    let mut most: u8 = 0;
    for x in symbols {
        most = most.max(*x);
    }
    most < s
}

// The bytes as a rule image with its root, where they are one (else refusal 7).
pub fn validity(bytes: &[u8]) -> Option<Rooted<'_>>
    ensures { MatchOption result (valid bytes.now ≡ false) (λ image. image.image.bytes.now ≡ bytes.now) }
{
    let [s, r, v, e, rest @ ..] = bytes else {
        return None;
    };
    if !header_in_range(*s, *r, *v, *e) {
        return None;
    }
    let (contents, bodies) = rest.split_at_checked(4 * usize::from(*r))?;
    let root = root_of(contents, *v, bodies.len())?;
    if !all_below(bodies, *s) {
        return None;
    }
    Some(Rooted {
        image: Image { bytes },
        root,
    })
}
