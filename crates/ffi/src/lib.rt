// The C interface of the watcher. Each function calls the library function of its name and spells the answer in numbers.
#![tactic(auto)]

ghost use Rattle.std.specs.Prelude.{◌≡◌, ◌≤◌, ◌<◌, [], ◌∷◌, None, Ok};
ghost use Rattle.layout.specs.Refusals.{refusal_number, refused_by, numbered};
ghost use Rattle.layout.specs.Compile.{compile_of, word_count};
ghost use Rattle.layout.specs.TableCheck.{check_of};
ghost use Rattle.grammar.specs.Read.{read_of};
ghost use Rattle.grammar.specs.Lookup.{number_or, symbol_named};
ghost use Rattle.machine.specs.Areas.{document_capacity};
ghost use Rattle.machine.specs.Calls.{fresh_of, offer_of, go_on_of, answer_number};
ghost use Rattle.machine.specs.Batch.{batch_of};
ghost use Rattle.monitor.specs.Lent.{head_in, lent, stop_number};
ghost use Rattle.ffi.specs.Numbers.{read_number, read_words, refused_number};
ghost use Rattle.ffi.specs.Heads.{standing_word, head_from, head_words, head_after, call_words};
ghost use Rattle.ffi.specs.Heads.{fresh_made, call_made, batch_made};

use layout::Refusal;
use machine::Answer;
use monitor::{Head, Returned};

// read_rules: 0, or the refusal's number; in `out` the image's length and 0, beside a refusal 0 and its place.
#[unsafe(no_mangle)]
pub extern "C" fn watcher_read_rules(
    text: &[u8],
    image: &mut [u8],
    names: &mut [u8],
    out: &mut [u64; 2],
) -> u32
    ensures refusal { result ≡ read_number (read_of text.now image.old names.old).answer }
    ensures image { image.new ≡ (read_of text.now image.old names.old).image }
    ensures names { names.new ≡ (read_of text.now image.old names.old).names }
    ensures words { out.new ≡ read_words (read_of text.now image.old names.old).answer }
{
    match text::read_rules(text, image, names) {
        Ok(n) => {
            *out = [n as u64, 0];
            0
        }
        Err(error) => {
            *out = [0, error.place as u64];
            error.refusal.number()
        }
    }
}

// symbol: the number of the symbol with this name, by the name slots that read_rules writes; 32 where there is none.
#[unsafe(no_mangle)]
pub extern "C" fn watcher_symbol(names: &[u8], name: &[u8]) -> u32
    ensures { result ≡ number_or 32 (symbol_named names.now name.now) }
{
    tokens::symbol(names, name).map_or(32, |i| i as u32)
}

// compile: 0, or the refusal's number; in `out` the number of words written, 0 beside a refusal.
#[unsafe(no_mangle)]
pub extern "C" fn watcher_compile(image: &[u8], table: &mut [u16], out: &mut [u64; 1]) -> u32
    ensures refusal { result ≡ refused_number (compile_of image.now table.old).answer }
    ensures area { table.new ≡ (compile_of image.now table.old).area }
    ensures words { out.new ≡ word_count (compile_of image.now table.old).answer ∷ [] }
{
    match table::compile(image, table) {
        Ok(n) => {
            *out = [n as u64];
            0
        }
        Err(refusal) => {
            *out = [0];
            refusal.number()
        }
    }
}

// The check of a lent image and table that each call begins with: 0, or refusal 7 or 9.
#[unsafe(no_mangle)]
pub extern "C" fn watcher_check_table(image: &[u8], table: &[u16]) -> u32
    ensures { result ≡ refused_number (check_of image.now table.now) }
{
    refusal_of(table::check(image, table).err())
}

// A refusal's number, and 0 where there is none.
#[tactic(auto, unfolding(layout::specs::Refusals::refusal_number))]
fn refusal_of(refusal: Option<Refusal>) -> u32
    ensures { result ≡ stop_number refusal }
{
    refusal.map_or(0, |refusal| refusal.number())
}

// The head that four words are, and the four words that a head is. Both types are other crates', so these are no `From`.
#[tactic(auto, unfolding(crate::specs::Heads::head_from, crate::specs::Heads::standing_from))]
fn head_from(words: &[u64; 4]) -> Head
    ensures { result ≡ head_from words.now }
{
    let [settled, waiting, verdict, rule] = *words;
    Head {
        settled: settled as usize,
        waiting: waiting as usize,
        verdict: verdict.checked_sub(1),
        rule: rule as usize,
    }
}

#[tactic(auto, unfolding(crate::specs::Heads::head_words, crate::specs::Heads::standing_word))]
fn head_words(head: Head) -> [u64; 4]
    requires { standing_word head.verdict ≤ 16 }
    ensures { result ≡ head_words (head_in head) }
{
    [
        head.settled as u64,
        head.waiting as u64,
        head.verdict.map_or(0, |v| v + 1),
        head.rule as u64,
    ]
}

// An answer as a word, 0 beside a refusal. Answers are numbers here, and heads are words, since the interface is C's.
#[tactic(auto, unfolding(machine::specs::Calls::answer_number))]
fn answer_word(answer: Result<Answer, Refusal>) -> u64
    requires { answer_number (numbered answer) < 256 }
    ensures { result ≡ answer_number (numbered answer) }
{
    match answer {
        Ok(answer) => answer.number(),
        Err(_) => 0,
    }
}

// What an answer leaves behind: the new head, unless it is a refusal; the refusal's number or 0.
#[tactic(auto, unfolding(layout::specs::Refusals::refused_by, layout::specs::Refusals::refusal_number))]
fn told<A: Copy>(answer: Result<A, Refusal>, new: Head, head: &mut [u64; 4]) -> u32
    requires { refused_by (numbered answer) ≡ None → standing_word new.verdict ≤ 16 }
    ensures refusal { result ≡ refusal_number (refused_by (numbered answer)) }
    ensures head { head.new ≡ head_after (refused_by (numbered answer)) head.old (head_in new) }
{
    match answer {
        Err(refusal) => refusal.number(),
        Ok(_) => {
            *head = head_words(new);
            0
        }
    }
}

// What a call gave back: beside its head and refusal, the answer and the counts.
#[tactic(auto, unfolding(crate::specs::Heads::call_words))]
fn call_told(called: Returned, head: &mut [u64; 4], out: &mut [u64; 4]) -> u32
    requires answer { answer_number (numbered called.answer) < 256 }
    requires verdict { refused_by (numbered called.answer) ≡ None → standing_word called.head.verdict ≤ 16 }
    ensures refusal { result ≡ refusal_number (refused_by (numbered called.answer)) }
    ensures head { head.new ≡ head_after (refused_by (numbered called.answer)) head.old (head_in called.head) }
    ensures out { out.new ≡ call_words (numbered called.answer) called.counts }
{
    *out = [
        answer_word(called.answer),
        called.counts.steps,
        called.counts.rewrites,
        called.counts.put,
    ];
    told(called.answer, called.head, head)
}

// fresh: 0 or 10. The head is the empty one beside both.
#[unsafe(no_mangle)]
pub extern "C" fn watcher_fresh(head: &mut [u64; 4], bytes: &mut [u8], words: &mut [u16]) -> u32
    ensures { record { refusal = result; head = head.new; bytes = bytes.new; words = words.new }
        ≡ fresh_made (fresh_of document_capacity bytes.old words.old) }
{
    let begun = monitor::fresh(bytes, words);
    *head = head_words(begun.head);
    refusal_of(begun.answer.err())
}

// offer: 0 or the refusal's number; in `out` the answer and the counts.
#[unsafe(no_mangle)]
pub extern "C" fn watcher_offer(
    image: &[u8],
    table: &[u16],
    head: &mut [u64; 4],
    bytes: &mut [u8],
    words: &mut [u16],
    event: u8,
    fuel: u32,
    out: &mut [u64; 4],
) -> u32
    ensures { record { refusal = result; head = head.new; bytes = bytes.new; words = words.new; out = out.new }
        ≡ call_made head.old (offer_of document_capacity image.now table.now
        (lent (head_from head.old) bytes.old words.old) event fuel) }
{
    let called = head_from(head).offer(image, table, bytes, words, event, fuel);
    call_told(called, head, out)
}

// go on: as offer, without an event.
#[unsafe(no_mangle)]
pub extern "C" fn watcher_go_on(
    image: &[u8],
    table: &[u16],
    head: &mut [u64; 4],
    bytes: &mut [u8],
    words: &mut [u16],
    fuel: u32,
    out: &mut [u64; 4],
) -> u32
    ensures { record { refusal = result; head = head.new; bytes = bytes.new; words = words.new; out = out.new }
        ≡ call_made head.old (go_on_of document_capacity image.now table.now
        (lent (head_from head.old) bytes.old words.old) fuel) }
{
    let called = head_from(head).go_on(image, table, bytes, words, fuel);
    call_told(called, head, out)
}

// batch: 0 or the refusal's number; in `out` the stop, the number of accepted events and the summed counts.
#[unsafe(no_mangle)]
pub extern "C" fn watcher_batch(
    image: &[u8],
    table: &[u16],
    head: &mut [u64; 4],
    bytes: &mut [u8],
    words: &mut [u16],
    events: &[u8],
    fuel: u32,
    answers: &mut [u8],
    out: &mut [u64; 5],
) -> u32
    ensures { record {
      refusal = result;
      head = head.new;
      bytes = bytes.new;
      words = words.new;
      answers = answers.new;
      out = out.new;
    }
        ≡ batch_made head.old (batch_of document_capacity image.now table.now
        (lent (head_from head.old) bytes.old words.old) events.now fuel answers.old) }
{
    let batched = head_from(head).batch(image, table, bytes, words, events, fuel, answers);
    *out = [
        u64::from(refusal_of(batched.stop)),
        batched.accepted as u64,
        batched.counts.steps,
        batched.counts.rewrites,
        batched.counts.put,
    ];
    told(batched.answer, batched.head, head)
}
