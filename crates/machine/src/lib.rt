// The types that the definitions of specs/ share with the code, and what answers and counts are asked for. The head has methods
// that look into the areas, so it stands with them, in the crate monitor.
#![tactic(auto)]

ghost use Rattle.std.specs.Prelude.{◌+◌, ◌<◌, ◌≡◌, Ok};
ghost use Rattle.machine.specs.Run.{plus};
ghost use Rattle.machine.specs.Calls.{answer_number};

// Document 01's 2,048: the number of bytes and of words of a monitor.
pub const CAPACITY: usize = 2048;

// The most fuel for a call, and the most events of a batch.
pub const FUEL_MOST: u32 = 65535;

pub const EVENTS_MOST: usize = 65535;

// What a call answers that is not refused.
#[derive(Clone, Copy)]
pub enum Answer {
    Quiet,
    Spent,
    Full,
    Verdict(u64),
}

// Steps, rewrites and symbols put back, of a call or summed over several.
#[derive(Clone, Copy)]
pub struct Counts {
    pub steps: u64,
    pub rewrites: u64,
    pub put: u64,
}

impl Answer {
    // Its number: a verdict's is 16 + its own.
    #[tactic(auto, unfolding(crate::specs::Calls::answer_number))]
    pub fn number(self) -> u64
        requires { answer_number (Ok self) < 18446744073709551616 }
        ensures { result ≡ answer_number (Ok self) }
    {
        match self {
            Answer::Quiet => 0,
            Answer::Spent => 1,
            Answer::Full => 2,
            Answer::Verdict(v) => 16 + v,
        }
    }
}

impl Counts {
    // No steps, no rewrites, nothing put back.
    pub const NONE: Counts = Counts {
        steps: 0,
        rewrites: 0,
        put: 0,
    };

    // These and then others.
    #[tactic(auto, unfolding(crate::specs::Run::plus))]
    pub fn plus(self, others: Counts) -> Counts
        requires steps { self.steps + others.steps < 18446744073709551616 }
        requires rewrites { self.rewrites + others.rewrites < 18446744073709551616 }
        requires put { self.put + others.put < 18446744073709551616 }
        ensures { result ≡ plus self others }
    {
        Counts {
            steps: self.steps + others.steps,
            rewrites: self.rewrites + others.rewrites,
            put: self.put + others.put,
        }
    }
}
