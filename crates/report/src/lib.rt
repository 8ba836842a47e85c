// What `watch` prints: lines, written one at a time into one that is lent.
#![tactic(auto)]

ghost use Rattle.std.specs.Prelude.{◌+◌, ◌≤◌, ◌<◌, ◌≡◌, true, [], length, Some, MatchOption, option_map};
ghost use Rattle.rewriting.specs.Lists.{over};
ghost use Rattle.layout.specs.Image.{read, valid};
ghost use Rattle.layout.specs.Table.{table_of};
ghost use Rattle.printing.specs.Watch.{input_most, rule_part, fresh_monitor};
ghost use Rattle.printing.specs.Turns.{line_most, offering, next_of, turn_of, watch_in};
ghost use Rattle.printing.specs.Turns.{events_at, areas, begin_of, begins_from, Inside};
ghost use Rattle.lines.specs.Wrote.{written_in, area_in, SameArea};
ghost use Rattle.report.specs.Lent.{walk_in, begun_in, watched, turn_in};

use grammar::NAMES_BYTES;
use layout::{IMAGE_BYTES, Refusal, TABLE_WORDS};
use lines::{LINE_BYTES, Line};
use machine::CAPACITY;
use monitor::Head;

// Document 01's 20,480 bytes of input, and fuel 1,000 for each name.
pub const INPUT_BYTES: usize = 20480;

const FUEL: u32 = 1000;

// What `begin` made of a rule text: its image, the slots of its names, its table, wherever they lie. A walk only reads them, so
// that several may share them.
#[derive(Clone, Copy)]
pub struct RuleAreas<'a> {
    pub image: &'a [u8; IMAGE_BYTES],
    pub names: &'a [u8; NAMES_BYTES],
    pub table: &'a [u16; TABLE_WORDS],
}

// The walk over the event names: the monitor's head, where in the input the next name is looked for, and how long the image and
// the table are. It keeps that place, and not the rest of the input as a slice: then the input would be lent for as long as the
// walk lives, and not just to each call of `next`, which could not tell from the rest whether the input is too long. The two
// lengths beside the arrays of `RuleAreas` would be no plainer: `next` would have to keep them inside the arrays there too.
#[derive(Clone, Copy)]
pub struct Walk {
    pub head: Head,
    pub at: usize,
    pub image: usize,
    pub table: usize,
}

// How long the rule text is: up to the first `%`, or the whole input.
fn rule_length(input: &[u8]) -> usize
    ensures { result ≡ length (rule_part input.now) }
{
    input.iter().position(|b| *b == b'%').unwrap_or(input.len())
}

// Where the event names begin: behind the `%` at the end of the rule text, or at the end of the input.
fn events_start(input: &[u8], end: usize) -> usize
    requires { end ≡ length (rule_part input.now) }
    ensures { result ≡ events_at input.now }
{
    if end < input.len() {
        return end + 1;
    }
    end
}

// Compiles the image and makes the monitor fresh: the events that begin at `at` are to be offered.
fn make_ready(
    at: usize,
    image: &[u8],
    table: &mut [u16; TABLE_WORDS],
    bytes: &mut [u8; CAPACITY],
    words: &mut [u16; CAPACITY],
) -> Option<Walk>
    requires { valid image.now ≡ true }
    ensures answer { option_map walk_in result
        ≡ Some (record {
          head = fresh_monitor.head;
          at = at;
          image = length image.now;
          table = length (table_of (read image.now));
        }) }
    ensures table { table.new ≡ over (table_of (read image.now)) table.old }
    ensures bytes { bytes.new ≡ fresh_monitor.bytes }
    ensures words { words.new ≡ fresh_monitor.words }
{
    // A valid image is never refused, where the table's area has TABLE_WORDS places.
    let size = table::compile(image, table).ok()?;
    let begun = monitor::fresh(bytes, words);
    Some(Walk {
        head: begun.head,
        at,
        image: image.len(),
        table: size,
    })
}

// Begins with an input: the rules go into their areas, and the events are to be offered one by one, by `next`. Where the input or
// its rule text is wrong, there are none, and the line is a message. It takes the areas whatever they hold. They are lent one by
// one: structs that own them would ask callers that they lie together.
pub fn begin(
    input: &[u8],
    image: &mut [u8; IMAGE_BYTES],
    names: &mut [u8; NAMES_BYTES],
    table: &mut [u16; TABLE_WORDS],
    bytes: &mut [u8; CAPACITY],
    words: &mut [u16; CAPACITY],
    message: &mut Line<'_, LINE_BYTES>,
) -> Option<Walk>
    ensures outcome { begins_from (begun_in result (written_in message.new))
        (areas image.new names.new table.new bytes.new words.new (area_in message.new))
        ≡ begin_of input.now (areas image.old names.old table.old bytes.old words.old (area_in message.old)) }
    ensures inside { Inside (begun_in result (written_in message.new)) }
    ensures same { SameArea message.old message.new }
{
    message.clear();
    if INPUT_BYTES < input.len() {
        message.put(b"input too long\n");
        return None;
    }
    let end = rule_length(input);
    match text::read_rules(&input[..end], image, names) {
        Err(error) => {
            message.put_rules_refused(error.refusal.number(), error.place);
            None
        }
        Ok(size) => make_ready(
            events_start(input, end),
            &image[..size],
            table,
            bytes,
            words,
        ),
    }
}

impl Walk {
    // Offers the name x, which ends at `end`, and writes its line. It takes the arrays of `RuleAreas` one by one: with the
    // struct, the proof did not close, as it was not given the length of an array that a field borrows.
    fn named(
        self,
        end: usize,
        x: &[u8],
        image: &[u8; IMAGE_BYTES],
        names: &[u8; NAMES_BYTES],
        table: &[u16; TABLE_WORDS],
        bytes: &mut [u8; CAPACITY],
        words: &mut [u16; CAPACITY],
        line: &mut Line<'_, LINE_BYTES>,
    ) -> Walk
        requires short { length x.now ≤ input_most }
        requires line { (written_in line.old).bytes ≡ [] }
        requires room { line_most ≤ length (written_in line.old).behind }
        ensures turn { turn_in self (Some result) bytes.new words.new line.new
            ≡ turn_of (walk_in self) (offering
            (watch_in (walk_in self) image.now table.now names.now bytes.old words.old) end x.now) (area_in line.old) }
        ensures fits { length (written_in line.new).bytes ≤ line_most }
        ensures area { SameArea line.old line.new }
    {
        line.put(x);
        line.put_byte(b' ');
        match tokens::symbol(names, x) {
            None => {
                line.put_refused(Refusal::NoEvent.number());
                Walk { at: end, ..self }
            }
            Some(a) => {
                let called = self.head.offer(
                    &image[..usize::min(self.image, IMAGE_BYTES)],
                    &table[..usize::min(self.table, TABLE_WORDS)],
                    bytes,
                    words,
                    a as u8,
                    FUEL,
                );
                line.put_told(names, called, bytes);
                Walk {
                    head: called.head,
                    at: end,
                    ..self
                }
            }
        }
    }

    // The next line: the first name from here on is offered. Where no name is left, the line is empty.
    pub fn next(
        self,
        input: &[u8],
        rules: RuleAreas<'_>,
        bytes: &mut [u8; CAPACITY],
        words: &mut [u16; CAPACITY],
        line: &mut Line<'_, LINE_BYTES>,
    ) -> Option<Walk>
        ensures turn { turn_in self result bytes.new words.new line.new
            ≡ turn_of (walk_in self) (next_of (watched self rules.entry bytes.old words.old) input.now self.at)
            (area_in line.old) }
        ensures fits { length (written_in line.new).bytes ≤ line_most }
        ensures same { SameArea line.old line.new }
        ensures onward { MatchOption result (length (written_in line.new).bytes ≡ 0)
            (λ next. (0 < length (written_in line.new).bytes) × ((self.at < next.at) × (next.at ≤ length input.now))) }
    {
        line.clear();
        if INPUT_BYTES < input.len() {
            return None;
        }
        let rest = input.get(self.at..)?;
        let run = tokens::first_run(rest);
        if run.is_empty() {
            return None;
        }
        let end = self.at + run.end;
        Some(self.named(
            end,
            &rest[run],
            rules.image,
            rules.names,
            rules.table,
            bytes,
            words,
            line,
        ))
    }
}
