// One step, and a call's run. They are in line in their callers: a run that is fast keeps the head in registers, from step to
// step and, in a batch, from call to call. The module is private: what its functions ask, the checks of a call have shown.
ghost use Rattle.std.specs.Prelude.{◌+◌, ◌*◌, ◌<◌, ◌≡◌, length, None, IfSome};
ghost use Rattle.machine.specs.Run.{run};
ghost use Rattle.machine.specs.Areas.{state_of};
ghost use Rattle.machine.specs.Calls.{outcome};
ghost use Rattle.machine.specs.Lent.{step_of, tried};
ghost use Rattle.areas.specs.Lent.{set_by, PassedWith};
ghost use Rattle.monitor.specs.Lent.{lent, active, stepped_from, outcome_from};

use crate::{Head, Returned};
use areas::held;
use areas::rules::Rules;
use machine::{Answer, Counts};

// What a step that was taken leads to, and its counts.
#[derive(Clone, Copy)]
pub struct Stepped {
    pub head: Head,
    pub counts: Counts,
}

impl Head {
    // The next step, where no verdict stands. One that does not fit is not taken, and nothing has changed.
    #[inline(always)]
    fn step(self, rules: Rules<'_>, bytes: &mut [u8], words: &mut [u16]) -> Option<Stepped>
        requires lent { PassedWith rules (active self bytes.old words.old) }
        requires waiting { 0 < self.waiting }
        ensures tried { stepped_from self result bytes.new words.new
            ≡ tried (set_by rules.entry).rules (length bytes.old) (active self bytes.old words.old)
            (step_of (set_by rules.entry).rules (state_of (active self bytes.old words.old))) }
        ensures one { IfSome result (λ s. s.counts.steps ≡ 1) }
    {
        let Head {
            settled,
            waiting,
            ..
        } = self;
        let first = bytes.len() - waiting;
        let symbol = bytes[first];
        let q = held::word_before(words, settled);
        let next = rules.table.next(q, usize::from(symbol));
        let matched = rules.table.match_word(next);
        if matched != 0 {
            let rewritten = areas::rewrite(settled, waiting, rules, bytes, words, matched - 1)?;
            return Some(Stepped {
                head: Head {
                    settled: rewritten.settled,
                    waiting: rewritten.waiting,
                    verdict: rewritten.verdict,
                    rule: rewritten.rule,
                },
                counts: Counts {
                    steps: 1,
                    rewrites: 1,
                    put: rewritten.put,
                },
            });
        }
        bytes[first] = 0;
        bytes[settled] = symbol;
        words[settled] = next as u16;
        Some(Stepped {
            head: Head {
                settled: settled + 1,
                waiting: waiting - 1,
                verdict: None,
                rule: 0,
            },
            counts: Counts {
                steps: 1,
                rewrites: 0,
                put: 0,
            },
        })
    }

    // A call's run, where no verdict stands: document 01's tests in their order. Before the first step that is whether a symbol
    // waits; the tests that follow a step stand behind it, where the compiler knows which of them its branch decides. Fuel runs
    // down one per step, the form that document 01 names: it is no range that is gone through.
    #[inline(always)]
    pub(crate) fn run(
        self,
        rules: Rules<'_>,
        bytes: &mut [u8],
        words: &mut [u16],
        fuel: u32,
    ) -> Returned
        requires lent { PassedWith rules (lent self bytes.old words.old) }
        requires undecided { self.verdict ≡ None }
        ensures { outcome_from result bytes.new words.new
            ≡ outcome (set_by rules.entry) (length bytes.old) (lent self bytes.old words.old) None
            (run (set_by rules.entry).rules (length bytes.old) fuel (state_of (lent self bytes.old words.old))) }
    {
        let mut head = self;
        let mut counts = Counts::NONE;
        if head.waiting == 0 {
            return head.ended(Answer::Quiet, counts);
        }
        let mut left = fuel;
        while 0 < left {
            left -= 1;
            match head.step(rules, bytes, words) {
                None => return head.ended(Answer::Full, counts),
                Some(stepped) => {
                    head = stepped.head;
                    counts = counts.plus(stepped.counts);
                }
            }
            if let Some(v) = head.verdict {
                return head.ended(Answer::Verdict(v), counts);
            }
            if head.waiting == 0 {
                return head.ended(Answer::Quiet, counts);
            }
        }
        head.ended(Answer::Spent, counts)
    }
}
