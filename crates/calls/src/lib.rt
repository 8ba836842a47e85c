// A list of calls, given as numbers and made one after another through the monitor's public operations, from a fresh
// monitor. Two numbers a call: the first is 0 for a go-on and 1 + e for an offer of event e; the second is the fuel.
#![tactic(auto)]

ghost use Rattle.std.specs.Prelude.{◌+◌, ◌≡◌, true, length, None, Err};
ghost use Rattle.machine.specs.State as State;
ghost use Rattle.machine.specs.Areas.{document_capacity, head_of};
ghost use Rattle.machine.specs.Run.{no_counts, plus};
ghost use Rattle.machine.specs.Calls.{call_of};
ghost use Rattle.machine.specs.Play.{events_of, no_calls, play};
ghost use Rattle.monitor.specs.Lent.{head_out, lent, outcome_from};
ghost use Rattle.layout.specs.Refusals.{refused_by, numbered};
ghost use Rattle.calls.specs.Encoding.{call_in, Decodes, encodes, decoded_calls};
ghost use Rattle.calls.specs.Played.{logged, played_from, play_of, DemandThreeOf, Within};

use layout::Refusal;
use machine::{Answer, Counts};
use monitor::{Head, Returned};

// What play gives back, beside a refusal too: the head that the calls leave, whether the list was refused, how many events were
// accepted, and the summed counts.
#[derive(Clone, Copy)]
pub struct Played {
    pub head: Head,
    pub answer: Result<(), Refusal>,
    pub accepted: u64,
    pub counts: Counts,
}

// A call, read once from its two numbers.
#[derive(Clone, Copy)]
enum Call {
    Offer { event: u8, fuel: u32 },
    GoOn { fuel: u32 },
}

impl TryFrom<[u32; 2]> for Call {
    type Error = Refusal;

    ghost try_from_gives = { Decodes };

    fn try_from([first, fuel]: [u32; 2]) -> Result<Call, Refusal> {
        match first {
            0 => Ok(Call::GoOn { fuel }),
            1..=256 => Ok(Call::Offer {
                event: (first - 1) as u8,
                fuel,
            }),
            _ => Err(Refusal::NoCalls),
        }
    }
}

impl Call {
    // The monitor's operation that the call is.
    fn made(
        self,
        head: Head,
        image: &[u8],
        table: &[u16],
        bytes: &mut [u8],
        words: &mut [u16],
    ) -> Returned
        ensures { outcome_from result bytes.new words.new
            ≡ call_of document_capacity image.now table.now (lent head bytes.old words.old) (call_in self) }
    {
        match self {
            Call::Offer { event, fuel } => head.offer(image, table, bytes, words, event, fuel),
            Call::GoOn { fuel } => head.go_on(image, table, bytes, words, fuel),
        }
    }

    // How many events the call with this answer adds to the accepted ones.
    fn events(self, answer: Result<Answer, Refusal>) -> u64
        ensures { result ≡ length (events_of (refused_by (numbered answer)) (call_in self)) }
    {
        match (self, answer) {
            (Call::Offer { .. }, Ok(_)) => 1,
            (Call::Offer { .. }, Err(_)) => 0,
            (Call::GoOn { .. }, _) => 0,
        }
    }
}

// Whether the numbers are a list of calls, of at most 4,294,967,295, so that the sums fit 64 bits.
fn is_list(numbers: &[u32]) -> bool
    ensures { result ≡ encodes numbers.now }
{
    let (pairs, alone) = numbers.as_chunks::<2>();
    numbers.len() <= 8589934590
        && alone.is_empty()
        && pairs.iter().all(|&pair| Call::try_from(pair).is_ok())
}

impl Played {
    // A refusal of the list, beside the empty head.
    fn refused(refusal: Refusal) -> Played
        ensures { result
            ≡ record {
              head = head_out (head_of State.empty);
              answer = Err refusal;
              accepted = 0;
              counts = no_counts;
            } }
    {
        Played {
            head: Head::EMPTY,
            answer: Err(refusal),
            accepted: 0,
            counts: Counts::NONE,
        }
    }

    // One call more, and what it gave back.
    fn with(self, call: Call, called: Returned) -> Played
        requires { Within self.accepted (length (events_of (refused_by (numbered called.answer)) (call_in call)))
            self.counts called.counts }
        ensures { result
            ≡ record {
              head = called.head;
              answer = self.answer;
              accepted = self.accepted + length (events_of (refused_by (numbered called.answer)) (call_in call));
              counts = plus self.counts called.counts;
            } }
    {
        Played {
            head: called.head,
            accepted: self.accepted + call.events(called.answer),
            counts: self.counts.plus(called.counts),
            ..self
        }
    }
}

// All calls, one after another. That each pair of numbers is a call has been tested.
fn made_all(
    begun: Head,
    image: &[u8],
    table: &[u16],
    bytes: &mut [u8],
    words: &mut [u16],
    numbers: &[u32],
) -> Played
    requires { encodes numbers.now ≡ true }
    ensures { played_from result bytes.new words.new
        ≡ logged (play document_capacity image.now table.now (no_calls (lent begun bytes.old words.old))
        (decoded_calls numbers.now)) }
{
    let (pairs, _) = numbers.as_chunks::<2>();
    let mut played = Played {
        head: begun,
        answer: Ok(()),
        accepted: 0,
        counts: Counts::NONE,
    };
    for &pair in pairs {
        let Ok(call) = Call::try_from(pair) else {
            unreachable!()
        };
        let called = call.made(played.head, image, table, bytes, words);
        played = played.with(call, called);
    }
    played
}

// The calls that the numbers are, from a fresh monitor. Refused are, in order: 30, the numbers are no list of calls; 10.
pub fn play(
    image: &[u8],
    table: &[u16],
    bytes: &mut [u8],
    words: &mut [u16],
    numbers: &[u32],
) -> Played
    ensures outcome { played_from result bytes.new words.new
        ≡ play_of document_capacity image.now table.now bytes.old words.old numbers.now }
    ensures promise { refused_by (numbered result.answer) ≡ None
        → DemandThreeOf document_capacity image.now table.now bytes.old words.old
        (decoded_calls numbers.now)
        result bytes.new words.new }
{
    if !is_list(numbers) {
        return Played::refused(Refusal::NoCalls);
    }
    let begun = monitor::fresh(bytes, words);
    match begun.answer {
        Err(refusal) => Played::refused(refusal),
        Ok(()) => made_all(begun.head, image, table, bytes, words, numbers),
    }
}
