// Bytes, runs of bytes, and the tokens that they are.
ghost use Rattle.std.specs.Prelude.{◌≤◌, ◌≡◌, length, get_or};
ghost use Rattle.grammar.specs.Tokens.{separator, name_byte, unbroken};
ghost use Rattle.grammar.specs.FirstRun.{gap};
ghost use Rattle.tokens.specs.Classes.{class_of, name_pair};
ghost use Rattle.tokens.specs.Scanned.{lead, named_as, kind_of};

use crate::Kind;
use Class::{Name as N, Other as O, Separator as S};
use grammar::NAME_BYTES;

// What a byte may be in a rule text: a separator, a byte of a name, or neither.
#[repr(u8)]
#[derive(Clone, Copy)]
pub enum Class {
    Separator,
    Name,
    Other,
}

// The class of each byte, 32 to a line. A `match` would do the same, and take twice as long on a text of long names.
static CLASSES: [Class; 256] = [
    O, O, O, O, O, O, O, O, O, S, S, O, O, S, O, O, O, O, O, O, O, O, O, O, O, O, O, O, O, O, O, O,
    S, O, O, O, O, O, O, O, O, O, O, O, O, O, O, O, N, N, N, N, N, N, N, N, N, N, O, O, O, O, O, O,
    O, N, N, N, N, N, N, N, N, N, N, N, N, N, N, N, N, N, N, N, N, N, N, N, N, N, N, O, O, O, O, N,
    O, N, N, N, N, N, N, N, N, N, N, N, N, N, N, N, N, N, N, N, N, N, N, N, N, N, N, O, O, O, O, O,
    O, O, O, O, O, O, O, O, O, O, O, O, O, O, O, O, O, O, O, O, O, O, O, O, O, O, O, O, O, O, O, O,
    O, O, O, O, O, O, O, O, O, O, O, O, O, O, O, O, O, O, O, O, O, O, O, O, O, O, O, O, O, O, O, O,
    O, O, O, O, O, O, O, O, O, O, O, O, O, O, O, O, O, O, O, O, O, O, O, O, O, O, O, O, O, O, O, O,
    O, O, O, O, O, O, O, O, O, O, O, O, O, O, O, O, O, O, O, O, O, O, O, O, O, O, O, O, O, O, O, O,
];

// The class of a byte.
pub fn class_of(b: u8) -> Class
    ensures { result ≡ class_of b }
{
    CLASSES[b as usize]
}

// Space, tab, CR or LF.
fn is_separator(b: u8) -> bool
    ensures { result ≡ separator b }
{
    matches!(class_of(b), Class::Separator)
}

// A letter, a digit or `_`.
fn is_name_byte(b: u8) -> bool
    ensures { result ≡ name_byte b }
{
    matches!(class_of(b), Class::Name)
}

// How many separators stand before the first run of a part of a text.
pub fn gap_of(part: &[u8]) -> usize
    ensures { result ≡ gap part.now }
{
    part.iter()
        .position(|&b| !is_separator(b))
        .unwrap_or(part.len())
}

// How many bytes stand before its first separator.
pub(crate) fn unbroken_length(part: &[u8]) -> usize
    ensures { result ≡ length (unbroken part.now) }
{
    part.iter()
        .position(|&b| is_separator(b))
        .unwrap_or(part.len())
}

// The class of the byte at a place, and that of a separator behind the last one.
pub fn class_at(text: &[u8], i: usize) -> Class
    ensures { result ≡ class_of (get_or text.now i 32) }
{
    match text.get(i) {
        Some(&b) => class_of(b),
        None => Class::Separator,
    }
}

// Whether the byte at a place and the one behind it may both be in a name. Long names are read faster by two bytes at a time.
pub fn is_name_pair(text: &[u8], i: usize) -> bool
    ensures { result ≡ name_pair text.now i }
{
    2 <= text.len() && i <= text.len() - 2 && is_name_byte(text[i]) && is_name_byte(text[i + 1])
}

// How many bytes stand before the name of a run that begins here: those of `#`, `.`, `^` and `->`.
#[tactic(auto, using(crate::proofs::Scans::lead_is, crate::proofs::Scans::first_past, crate::proofs::Scans::second_past))]
pub fn lead_of(part: &[u8]) -> usize
    ensures { result ≡ lead part.now }
{
    match part {
        [b'#' | b'.' | b'^', ..] => 1,
        [b'-', b'>', ..] => 2,
        _ => 0,
    }
}

// The kind of a run with this name, if it begins with a letter and is not too long.
fn named(name: &[u8], kind: Kind) -> Option<Kind>
    ensures { result ≡ named_as kind name.now }
{
    match name {
        [first, ..] if first.is_ascii_alphabetic() && name.len() <= NAME_BYTES => Some(kind),
        _ => None,
    }
}

// What a run is, if all bytes of its name may be in one.
#[tactic(auto, using(crate::proofs::Scans::kind_is))]
pub fn kind_of(run: &[u8]) -> Option<Kind>
    ensures { result ≡ kind_of run.now }
{
    if let [b'#', name @ ..] = run {
        return named(name, Kind::Word);
    }
    match run {
        b"." => Some(Kind::Stop),
        b"->" => Some(Kind::Arrow),
        b"^" => Some(Kind::Mark),
        _ => named(run, Kind::Name),
    }
}
