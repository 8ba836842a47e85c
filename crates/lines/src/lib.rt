// A line that is being written, part by part, in an area that is lent to it. What its methods ask, that there is room above
// all, the crate report shows; `watch` makes a line and reads it, which asks for no more than an area; `into_area` is for a
// caller who wants that back. The parts are no `Display` for a `write!`, which would be no plainer: that takes text, and a name
// here is bytes that nothing asks to be text; and it may fail by its clauses, while these methods can't.
#![tactic(auto)]

ghost use Rattle.std.specs.Prelude.{◌+◌, ◌*◌, ◌≤◌, ◌<◌, ◌≡◌, true, length, None, Ok};
ghost use mathlib.Core.List.{[], ◌∷◌, ◌++◌, flat_map};
ghost use Rattle.rewriting.specs.Lists.{below, over};
ghost use Rattle.layout.specs.Refusals.{refused_by, numbered};
ghost use Rattle.monitor.specs.Lent.{outcome_from};
ghost use Rattle.printing.specs.Lines.{space, comma, newline, refused_word, decimal, name_in, joined};
ghost use Rattle.printing.specs.Lines.{answer_word, counted, told, refused_line};
ghost use Rattle.printing.specs.Turns.{line_most};
ghost use Rattle.grammar.specs.Names.{slot_size};
ghost use Rattle.machine.specs.declared.Answer.{Answer};
ghost use Rattle.machine.specs.Areas.{document_capacity};

use grammar::{NAMES_BYTES, SLOT_BYTES};
use layout::Refusal;
use machine::{Answer, CAPACITY};
use monitor::Returned;

// The most bytes that a line has: `line_most`, printing/specs/Turns.antt.
pub const LINE_BYTES: usize = 51261;

// The area that is lent to a line, of N places at least, and how many of its bytes are written. Methods that write ask for room
// behind the line, whatever N is; `begin` and `next` in report take an N that has room for any line, and so ask nothing. Clauses
// see the bytes that are written and those behind them (`written_in`), and that the area is still the one that was lent (`same`):
// so whoever lent an array knows what it holds once the line is gone.
#[derive(Drop)]
pub struct Line<'a, const N: usize> {
    area: &'a mut [u8],
    written: usize,
    ghost inside: { written ≤ length area.now },
    ghost room: { N ≤ length area.now },
}

// Writes a number in base ten at the beginning of what is lent, and says how many digits that are. It calls itself for the digits
// before the last, as `decimal` is defined. It is no method, since the check proves no generic one yet that calls itself.
fn write_decimal(line: &mut [u8], n: u64) -> usize
    requires { length (decimal n) ≤ length line.old }
    ensures digits { result ≡ length (decimal n) }
    ensures line { line.new ≡ over (decimal n) line.old }
{
    if n < 10 {
        line[0] = b'0' + n as u8;
        return 1;
    }
    let end = write_decimal(line, n / 10);
    line[end] = b'0' + (n % 10) as u8;
    end + 1
}

impl<'a, const N: usize> Line<'a, N> {
    ghost use Rattle.lines.specs.Wrote.{written_in, area_in, empty, SameArea, WritesIn, HasSlot, Small};

    // A line that is written into this area.
    pub fn new(area: &'a mut [u8]) -> Self
        requires { N ≤ length area.old }
        ensures line { written_in result ≡ empty area.old }
        ensures same { result.area.ghost_name ≡ area.entry.ghost_name }
    {
        Line { area, written: 0 }
    }

    // What is written.
    pub fn bytes(&self) -> &[u8]
        ensures { result.now ≡ (written_in self.now).bytes }
    {
        &self.area[..self.written]
    }

    // The area, which begins with what is written.
    pub fn into_area(self) -> &'a mut [u8]
        ensures area { result.now ≡ area_in self.entry }
        ensures same { result.ghost_name ≡ self.entry.area.ghost_name }
    {
        let Line { area, .. } = self;
        area
    }

    // The line begins anew.
    pub fn clear(&mut self)
        ensures line { written_in self.new ≡ empty (area_in self.old) }
        ensures room { N ≤ length (written_in self.new).behind }
        ensures same { SameArea self.old self.new }
    {
        self.written = 0;
    }

    // One byte.
    pub fn put_byte(&mut self, b: u8)
        requires { 1 ≤ length (written_in self.old).behind }
        ensures { WritesIn (b ∷ []) self.old self.new }
    {
        self.put(&[b]);
    }

    // Several bytes.
    pub fn put(&mut self, x: &[u8])
        requires { length x.now ≤ length (written_in self.old).behind }
        ensures { WritesIn x.now self.old self.new }
    {
        let end = self.written + x.len();
        self.area[self.written..end].copy_from_slice(x);
        self.written = end;
    }

    // A number in base ten.
    fn put_decimal(&mut self, n: u64)
        requires { length (decimal n) ≤ length (written_in self.old).behind }
        ensures { WritesIn (decimal n) self.old self.new }
    {
        let digits = write_decimal(&mut self.area[self.written..], n);
        self.written += digits;
    }

    // The name in a slot.
    fn put_name(&mut self, names: &[u8; NAMES_BYTES], slot: usize)
        requires slot { slot < 48 }
        requires room { 24 ≤ length (written_in self.old).behind }
        ensures { WritesIn (name_in names.now slot) self.old self.new }
    {
        let start = SLOT_BYTES * slot + 1;
        let size = usize::min(usize::from(names[SLOT_BYTES * slot]), 24);
        self.put(&names[start..start + size]);
    }

    // The word for an answer.
    fn put_answer(&mut self, names: &[u8; NAMES_BYTES], answer: Answer)
        requires slot { HasSlot answer }
        requires room { slot_size ≤ length (written_in self.old).behind }
        ensures { WritesIn (answer_word names.now (Ok answer)) self.old self.new }
    {
        match answer {
            Answer::Quiet => self.put(b"quiet"),
            Answer::Spent => self.put(b"spent"),
            Answer::Full => self.put(b"full"),
            Answer::Verdict(v) => {
                self.put_byte(b'#');
                self.put_name(names, 32 + v as usize)
            }
        }
    }

    // The names of symbols, a comma before each.
    fn put_symbols(&mut self, names: &[u8; NAMES_BYTES], symbols: &[u8])
        requires slots { below 48 symbols.now ≡ true }
        requires room { slot_size * length symbols.now ≤ length (written_in self.old).behind }
        ensures { WritesIn (flat_map (λ b. comma ∷ name_in names.now b) symbols.now) self.old self.new }
    {
        for &symbol in symbols {
            self.put_byte(b',');
            self.put_name(names, usize::from(symbol));
        }
    }

    // The names of the string whose first symbols are settled and whose last ones wait, joined by commas; or `-`.
    fn put_string(&mut self, names: &[u8; NAMES_BYTES], settled: &[u8], waiting: &[u8])
        requires slots { below 48 (settled.now ++ waiting.now) ≡ true }
        requires some { 1 ≤ length (written_in self.old).behind }
        requires room { slot_size * length settled.now + slot_size * length waiting.now ≤ length (written_in self.old).behind }
        ensures { WritesIn (joined names.now (settled.now ++ waiting.now)) self.old self.new }
    {
        if let Some((&first, others)) = settled.split_first() {
            self.put_name(names, usize::from(first));
            self.put_symbols(names, others);
            self.put_symbols(names, waiting)
        } else if let Some((&first, others)) = waiting.split_first() {
            self.put_name(names, usize::from(first));
            self.put_symbols(names, others)
        } else {
            self.put_byte(b'-')
        }
    }

    // The number of steps and of rewrites.
    fn put_counts(&mut self, steps: u64, rewrites: u64)
        requires few { (steps ≤ 1000) × (rewrites ≤ 1000) }
        requires room { 9 ≤ length (written_in self.old).behind }
        ensures { WritesIn (decimal steps ++ space ∷ decimal rewrites) self.old self.new }
    {
        self.put_decimal(steps);
        self.put_byte(b' ');
        self.put_decimal(rewrites);
    }

    // The counts, the string and the line's end.
    fn put_counted(&mut self, names: &[u8; NAMES_BYTES], called: Returned, bytes: &[u8; CAPACITY])
        requires small { Small (outcome_from called bytes.now []) }
        requires room { 10 + document_capacity * slot_size ≤ length (written_in self.old).behind }
        ensures { WritesIn (counted names.now (outcome_from called bytes.now []) ++ newline ∷ []) self.old self.new }
    {
        self.put_counts(called.counts.steps, called.counts.rewrites);
        self.put_byte(b' ');
        let settled = called.head.settled;
        let waiting = CAPACITY - called.head.waiting;
        self.put_string(names, &bytes[..settled], &bytes[waiting..]);
        self.put_byte(b'\n');
    }

    // What is told of a call that is refused: the number. It may be any number: a `Refusal` here would ask more of callers.
    pub fn put_refused(&mut self, n: u32)
        requires room { 40 ≤ length (written_in self.old).behind }
        ensures { WritesIn (refused_word ++ space ∷ (decimal n ++ newline ∷ [])) self.old self.new }
    {
        self.put(b"refused ");
        self.put_decimal(u64::from(n));
        self.put_byte(b'\n');
    }

    // The rest of the line for a name, from the answer on: that, the counts and the string, or the number of a refusal.
    pub fn put_told(&mut self, names: &[u8; NAMES_BYTES], called: Returned, bytes: &[u8; CAPACITY])
        requires slot { (answer : Answer) → called.answer ≡ Ok answer → HasSlot answer }
        requires small { refused_by (numbered called.answer) ≡ None → Small (outcome_from called bytes.now []) }
        requires room { line_most ≤ slot_size + length (written_in self.old).behind }
        ensures { WritesIn (answer_word names.now (numbered called.answer)
            ++ space ∷ (told names.now (outcome_from called bytes.now []) (numbered called.answer) ++ newline ∷ []))
            self.old self.new }
    {
        match called.answer {
            Err(refusal) => self.put_refused(refusal.number()),
            Ok(answer) => {
                self.put_answer(names, answer);
                self.put_byte(b' ');
                self.put_counted(names, called, bytes)
            }
        }
    }

    // The line for a rule text that is refused: any number and any place, where a `TextError` would ask more of callers.
    pub fn put_rules_refused(&mut self, n: u32, place: usize)
        requires { 80 ≤ length (written_in self.old).behind }
        ensures { WritesIn (refused_line n place) self.old self.new }
    {
        self.put(b"rules refused ");
        self.put_decimal(u64::from(n));
        self.put_byte(b' ');
        self.put_decimal(place as u64);
        self.put_byte(b'\n');
    }
}
