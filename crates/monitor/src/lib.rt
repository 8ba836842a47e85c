// The monitor: fresh, offer, go on and batch. Each is what the crate machine defines, for everything that may be lent
// to it; the promise about every list of calls is proved of those definitions in machine/proofs/ListTheorem.antt.
// Image, table and areas are lent one by one, as the C interface hands them on.
#![tactic(auto)]

ghost use Rattle.std.specs.Prelude.{◌≡◌, None, Some, Ok, Err, MatchResult};
ghost use Rattle.layout.specs.Refusals.{refusal, number};
ghost use Rattle.machine.specs.Areas.{document_capacity};
ghost use Rattle.machine.specs.Run.{no_counts};
ghost use Rattle.machine.specs.Calls.{fresh_of, lent_checks, call_of, offer_of, go_on_of};
ghost use Rattle.machine.specs.Lent.{Passed, offer_or_go_on};
ghost use Rattle.machine.specs.Batch.{batch_of};
ghost use Rattle.monitor.specs.Lent.{lent, fresh_from, outcome_from, offers_from, batch_from};

use areas::rules::{Rules, Table};
use areas::{described, held};
use decide::Series;
use image::Image;
use layout::Refusal;
pub use machine::{Answer, Counts};
use machine::{CAPACITY, EVENTS_MOST, FUEL_MOST};

mod decide;
mod steps;

// The monitor's head: how many symbols are settled, how many wait, the verdict or none, and that verdict's rule (0 with none):
// they stand side by side as document 01 has them, since in a head that is lent a rule may stand beside no verdict, which 11
// refuses.
#[derive(Clone, Copy)]
pub struct Head {
    pub settled: usize,
    pub waiting: usize,
    pub verdict: Option<u64>,
    pub rule: usize,
}

// What fresh gives back: a head beside a refusal too.
#[derive(Clone, Copy)]
pub struct Begun {
    pub head: Head,
    pub answer: Result<(), Refusal>,
}

// What offer and go on give back: the new head beside the answer, or the head as given beside a refusal.
#[derive(Clone, Copy)]
pub struct Returned {
    pub head: Head,
    pub answer: Result<Answer, Refusal>,
    pub counts: Counts,
}

// What batch gives back: all of it beside a refusal too, as document 01 has it. The stop is the refusal of the first offer that
// was refused.
#[derive(Clone, Copy)]
pub struct BatchReturned {
    pub head: Head,
    pub answer: Result<(), Refusal>,
    pub stop: Option<Refusal>,
    pub accepted: usize,
    pub counts: Counts,
}

// Sets both areas to 0.
pub fn fresh(bytes: &mut [u8], words: &mut [u16]) -> Begun
    ensures { fresh_from result bytes.new words.new
        ≡ fresh_of document_capacity bytes.old words.old }
{
    if bytes.len() != CAPACITY || words.len() != CAPACITY {
        return Begun {
            head: Head::EMPTY,
            answer: Err(Refusal::AreaLength),
        };
    }
    held::clear(bytes, words, 0, CAPACITY);
    Begun {
        head: Head::EMPTY,
        answer: Ok(()),
    }
}

impl Head {
    // The head of a monitor that holds nothing.
    pub const EMPTY: Head = Head {
        settled: 0,
        waiting: 0,
        verdict: None,
        rule: 0,
    };

    // What a run gives back that ends here.
    fn ended(self, answer: Answer, counts: Counts) -> Returned
        ensures { result ≡ record { head = self; answer = Ok answer; counts = counts } }
    {
        Returned {
            head: self,
            answer: Ok(answer),
            counts,
        }
    }

    // A refusal: the head as given, and no counts.
    fn refused(self, refusal: Refusal) -> Returned
        ensures { result ≡ record { head = self; answer = Err refusal; counts = no_counts } }
    {
        Returned {
            head: self,
            answer: Err(refusal),
            counts: Counts::NONE,
        }
    }

    // The checks of what is lent: refusals 7, 9, 10 and 11. Where they pass, there is the table. In line, since the table is
    // handed on through memory by a function that is not.
    #[inline(always)]
    fn check_lent<'a>(
        self,
        image: &'a [u8],
        table: &'a [u16],
        bytes: &[u8],
        words: &[u16],
    ) -> Result<Table<'a>, Refusal>
        ensures { MatchResult result
            (λ t. (t.image.bytes.now ≡ image.now)
            × (t.words.now ≡ table.now)
            × Passed document_capacity t.image.bytes.now t.words.now (lent self bytes.now words.now))
            (λ r. refusal (lent_checks document_capacity image.now table.now (lent self bytes.now words.now))
            ≡ Some (number r)) }
    {
        table::check(image, table)?;
        if bytes.len() != CAPACITY || words.len() != CAPACITY {
            return Err(Refusal::AreaLength);
        }
        let table = Table::new(Image { bytes: image }, table);
        if !described::as_described(
            self.settled,
            self.waiting,
            self.verdict,
            self.rule,
            table,
            bytes,
            words,
        ) {
            return Err(Refusal::NotAsDescribed);
        }
        Ok(table)
    }

    // One call, an offer of the event or a go-on. In line in both, so that each has a copy without the tests of the other.
    #[inline(always)]
    fn once(
        self,
        image: &[u8],
        table: &[u16],
        bytes: &mut [u8],
        words: &mut [u16],
        offered: Option<u8>,
        fuel: u32,
    ) -> Returned
        ensures { outcome_from result bytes.new words.new
            ≡ call_of document_capacity image.now table.now (lent self bytes.old words.old) (offer_or_go_on offered fuel) }
    {
        let table = match self.check_lent(image, table, bytes, words) {
            Err(refusal) => return self.refused(refusal),
            Ok(table) => table,
        };
        let mut starts = [0; 64];
        let rules = Rules::new(table, &mut starts);
        self.call(rules, bytes, words, offered, fuel)
    }

    // The event becomes the last waiting symbol, and the call runs.
    #[tactic(auto, unfolding(machine::specs::Calls::offer_of, machine::specs::Lent::offer_or_go_on))]
    pub fn offer(
        self,
        image: &[u8],
        table: &[u16],
        bytes: &mut [u8],
        words: &mut [u16],
        event: u8,
        fuel: u32,
    ) -> Returned
        ensures { outcome_from result bytes.new words.new
            ≡ offer_of document_capacity image.now table.now (lent self bytes.old words.old) event fuel }
    {
        self.once(image, table, bytes, words, Some(event), fuel)
    }

    // The call runs on.
    #[tactic(auto, unfolding(machine::specs::Calls::go_on_of, machine::specs::Lent::offer_or_go_on))]
    pub fn go_on(
        self,
        image: &[u8],
        table: &[u16],
        bytes: &mut [u8],
        words: &mut [u16],
        fuel: u32,
    ) -> Returned
        ensures { outcome_from result bytes.new words.new
            ≡ go_on_of document_capacity image.now table.now (lent self bytes.old words.old) fuel }
    {
        self.once(image, table, bytes, words, None, fuel)
    }

    // The offers of a batch, up to the first that is refused, with the checks of what is lent made once; or the refusal
    // of the batch.
    fn offers(
        self,
        image: &[u8],
        table: &[u16],
        bytes: &mut [u8],
        words: &mut [u16],
        events: &[u8],
        fuel: u32,
        answers: &mut [u8],
    ) -> Result<Series, Refusal>
        ensures { offers_from self result bytes.new words.new answers.new
            ≡ batch_of document_capacity image.now table.now (lent self bytes.old words.old)
            events.now fuel answers.old }
    {
        let table = self.check_lent(image, table, bytes, words)?;
        if FUEL_MOST < fuel {
            return Err(Refusal::TooMuchFuel);
        }
        if EVENTS_MOST < events.len() || answers.len() < events.len() {
            return Err(Refusal::BatchLength);
        }
        let mut starts = [0; 64];
        let rules = Rules::new(table, &mut starts);
        Ok(self.in_turn(rules, bytes, words, events, fuel, answers))
    }

    // The offers of all events, up to the first that is refused.
    pub fn batch(
        self,
        image: &[u8],
        table: &[u16],
        bytes: &mut [u8],
        words: &mut [u16],
        events: &[u8],
        fuel: u32,
        answers: &mut [u8],
    ) -> BatchReturned
        ensures { batch_from result bytes.new words.new answers.new
            ≡ batch_of document_capacity image.now table.now (lent self bytes.old words.old)
            events.now fuel answers.old }
    {
        match self.offers(image, table, bytes, words, events, fuel, answers) {
            Ok(series) => BatchReturned {
                head: series.head,
                answer: Ok(()),
                stop: series.stop,
                accepted: series.accepted,
                counts: series.counts,
            },
            Err(refusal) => BatchReturned {
                head: self,
                answer: Err(refusal),
                stop: None,
                accepted: 0,
                counts: Counts::NONE,
            },
        }
    }
}
