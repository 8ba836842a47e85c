// Bytes, runs and name slots: what the reader of rule texts and the program look for in bytes.
#![tactic(auto)]

ghost use Rattle.std.specs.Prelude.{◌≡◌};
ghost use Rattle.grammar.specs.FirstRun.{first_run};
ghost use Rattle.grammar.specs.Lookup.{symbol_named};

use grammar::{NAME_BYTES, SLOT_BYTES, SYMBOLS_BYTES};
use std::ops::Range;

pub mod bytes;
pub mod names;

// What a run of bytes is.
#[derive(Clone, Copy, PartialEq, Eq)]
pub enum Kind {
    Name,
    Word,
    Arrow,
    Stop,
    Mark,
}

// The name reader: the first run of a part of a text, where it begins and ends in it. Where there is none, both are its end.
pub fn first_run(part: &[u8]) -> Range<usize>
    ensures { result ≡ first_run part.now }
{
    let start = bytes::gap_of(part);
    let size = bytes::unbroken_length(&part[start..]);
    start..start + size
}

// The symbol with this name, by the name slots that read_rules wrote.
pub fn symbol(names: &[u8], x: &[u8]) -> Option<usize>
    ensures { result ≡ symbol_named names.now x.now }
{
    if x.is_empty() || NAME_BYTES < x.len() || names.len() < SYMBOLS_BYTES {
        return None;
    }
    let (slots, _) = names.as_chunks::<SLOT_BYTES>();
    names::find(&slots[..32], &names::slot_of(x), x.len())
}
