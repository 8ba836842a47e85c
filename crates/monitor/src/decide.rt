// Offer, go on and the offers of a batch, where what is lent has been checked: what is left of their refusals, and the run. The
// module is private: what its functions ask, the check of what is lent has shown. Each function asks for that by a clause,
// since no type holds the head and the areas that it speaks of.
ghost use Rattle.std.specs.Prelude.{◌+◌, ◌≤◌, ◌<◌, ◌≡◌, length, IfSome};
ghost use Rattle.image.specs.Sets.{set_of};
ghost use Rattle.areas.specs.Lent.{PassedWith};
ghost use Rattle.layout.specs.Refusals.{refusal, answered, numbered};
ghost use Rattle.machine.specs.Calls.{call_checks, call_of};
ghost use Rattle.machine.specs.Batch.{events_most, offers, batched};
ghost use Rattle.machine.specs.Lent.{offer_or_go_on, event_allowed, event_fits, taken, bytes_with};
ghost use Rattle.monitor.specs.Lent.{head_in, lent, outcome_from, series_from};

use crate::{Head, Returned};
use areas::held;
use areas::rules::Rules;
use image::Image;
use layout::Refusal;
use machine::{Counts, FUEL_MOST};

// What a list of offers leads to, up to the first that is refused. The stop is that refusal.
#[derive(Clone, Copy)]
pub struct Series {
    pub head: Head,
    pub stop: Option<Refusal>,
    pub accepted: usize,
    pub counts: Counts,
}

// Whether refusal 12 is not called for: the event of an offer is one.
fn allowed(image: Image<'_>, offered: Option<u8>) -> bool
    ensures { result ≡ event_allowed offered (set_of image.entry).events }
{
    match offered {
        Some(event) => usize::from(event) < image.events(),
        None => true,
    }
}

// Whether refusal 15 is not called for: there is room for the event of an offer.
fn has_room(offered: Option<u8>, settled: usize, waiting: usize, capacity: usize) -> bool
    requires { settled + waiting ≤ capacity }
    ensures { result ≡ event_fits offered capacity (settled + waiting) }
{
    match offered {
        Some(_) => settled + waiting != capacity,
        None => true,
    }
}

impl Head {
    // The refusals of a call's own: 12 to 15 of an offer, 13 and 14 of a go-on.
    fn refusal(
        self,
        image: Image<'_>,
        capacity: usize,
        offered: Option<u8>,
        fuel: u32,
    ) -> Result<(), Refusal>
        requires { self.settled + self.waiting ≤ capacity }
        ensures { numbered result
            ≡ answered (refusal (call_checks (set_of image.entry) capacity (head_in self) (offer_or_go_on offered fuel))) }
    {
        if !allowed(image, offered) {
            return Err(Refusal::NoEvent);
        }
        if FUEL_MOST < fuel {
            return Err(Refusal::TooMuchFuel);
        }
        if self.verdict.is_some() {
            return Err(Refusal::VerdictStands);
        }
        if !has_room(offered, self.settled, self.waiting, capacity) {
            return Err(Refusal::NoRoom);
        }
        Ok(())
    }

    // The head with the event as the last waiting symbol, for an offer; for a go-on the head as it is. No verdict stands.
    fn taking(self, bytes: &mut [u8], offered: Option<u8>) -> Head
        requires { IfSome offered (λ event. self.waiting < length bytes.old) }
        ensures head { head_in result ≡ taken offered (head_in self) }
        ensures bytes { bytes.new ≡ bytes_with offered (length bytes.old) self.waiting bytes.old }
    {
        let mut waiting = self.waiting;
        if let Some(event) = offered {
            let capacity = bytes.len();
            held::move_left(bytes, capacity - waiting);
            bytes[capacity - 1] = event;
            waiting += 1;
        }
        Head {
            waiting,
            verdict: None,
            rule: 0,
            ..self
        }
    }

    // One call, an offer of the event or a go-on. It is in line, as its run is.
    #[inline(always)]
    pub(crate) fn call(
        self,
        rules: Rules<'_>,
        bytes: &mut [u8],
        words: &mut [u16],
        offered: Option<u8>,
        fuel: u32,
    ) -> Returned
        requires { PassedWith rules (lent self bytes.old words.old) }
        ensures { outcome_from result bytes.new words.new
            ≡ call_of (length bytes.old) rules.entry.table.image.bytes.now rules.entry.table.words.now
            (lent self bytes.old words.old)
            (offer_or_go_on offered fuel) }
    {
        match self.refusal(rules.table.image, bytes.len(), offered, fuel) {
            Err(refusal) => self.refused(refusal),
            Ok(()) => self.taking(bytes, offered).run(rules, bytes, words, fuel),
        }
    }

    // The offers of all events, up to the first that is refused. The answers' bytes are written by number: the library
    // says nothing of what is written through a `zip` with `iter_mut`, as `write_matches` of trie found.
    pub(crate) fn in_turn(
        self,
        rules: Rules<'_>,
        bytes: &mut [u8],
        words: &mut [u16],
        events: &[u8],
        fuel: u32,
        answers: &mut [u8],
    ) -> Series
        requires lent { PassedWith rules (lent self bytes.old words.old) }
        requires few { length events.now ≤ events_most }
        requires room { length events.now ≤ length answers.old }
        ensures { series_from result bytes.new words.new answers.new
            ≡ batched None (lent self bytes.old words.old) answers.old
            (offers (length bytes.old) rules.entry.table.image.bytes.now rules.entry.table.words.now
            (lent self bytes.old words.old) events.now fuel) }
    {
        let mut head = self;
        let mut counts = Counts::NONE;
        for (k, &event) in events.iter().enumerate() {
            let called = head.call(rules, bytes, words, Some(event), fuel);
            head = called.head;
            match called.answer {
                Ok(answer) => answers[k] = answer.number() as u8,
                Err(refusal) => {
                    return Series {
                        head,
                        stop: Some(refusal),
                        accepted: k,
                        counts,
                    };
                }
            }
            counts = counts.plus(called.counts);
        }
        Series {
            head,
            stop: None,
            accepted: events.len(),
            counts,
        }
    }
}
