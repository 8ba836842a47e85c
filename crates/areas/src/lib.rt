// What the monitor does with its two areas: writes, the check that they are as described, and a rewrite. What these functions ask
// of their caller, the checks of a call have shown; the crate monitor is the only one that calls them. The areas are lent as two
// slices: a struct of both would be no plainer, since clauses would name each of them all the same, and each public operation of
// the monitor, which is lent slices, would make it and take it apart.
#![tactic(auto)]

ghost use Rattle.std.specs.Prelude.{ℕ, ◌<◌, ◌≡◌, IfSome, length, Some, None};
ghost use Rattle.machine.specs.Areas.{state_of};
ghost use Rattle.machine.specs.Lent.{monitor_with, Matches, step_of, tried};
ghost use Rattle.areas.specs.Lent.{set_by, PassedWith};
ghost use Rattle.areas.specs.Rewritten.{rewritten_from};

use layout::RightSide;
use rules::Rules;

pub mod described;
pub mod held;
pub mod rules;

// A rewrite that was made: the head's four values after it, as a head has them, and the symbols that it put back.
#[derive(Clone, Copy)]
pub struct Rewritten {
    pub settled: usize,
    pub waiting: usize,
    pub verdict: Option<u64>,
    pub rule: usize,
    pub put: u64,
}

// The first waiting symbol completes rule i's left side: that is taken off, and the right side put back or the verdict set. Where
// it does not fit, it is not made.
pub fn rewrite(
    settled: usize,
    waiting: usize,
    rules: Rules<'_>,
    bytes: &mut [u8],
    words: &mut [u16],
    i: usize,
) -> Option<Rewritten>
    requires lent { PassedWith rules (monitor_with settled waiting None 0 bytes.old words.old) }
    requires next { Matches (set_by rules).rules (state_of (monitor_with settled waiting None 0 bytes.old words.old)) (Some i) }
    ensures tried { rewritten_from settled waiting result bytes.new words.new
        ≡ tried (set_by rules.entry).rules (length bytes.old)
        (monitor_with settled waiting None 0 bytes.old words.old)
        (step_of (set_by rules.entry).rules (state_of (monitor_with settled waiting None 0 bytes.old words.old))) }
    ensures verdict { IfSome result (λ r. (v : ℕ) → r.verdict ≡ Some v → v < 16) }
{
    let image = rules.table.image;
    let first = bytes.len() - waiting;
    let size = image.left_length(i);
    let behind = first + 1;
    let rest = waiting - 1;
    match image.right_side(i) {
        RightSide::Put(n) => {
            if behind + size < settled + 1 + n {
                return None;
            }
            let kept = held::take_off(bytes, words, first, settled, size);
            let held = held::put_back(image, rules.start(i), n, bytes, rest);
            Some(Rewritten {
                settled: kept,
                waiting: held,
                verdict: None,
                rule: 0,
                put: n as u64,
            })
        }
        RightSide::Close(v) => {
            let kept = held::take_off(bytes, words, first, settled, size);
            Some(Rewritten {
                settled: kept,
                waiting: rest,
                verdict: Some(v),
                rule: i,
                put: 0,
            })
        }
    }
}
