// Rules, occurrences and the plain rewriter: definitions (specs/) and their laws (proofs/). There is no code
// here; the crates above compute what these definitions say.
#![tactic(auto)]
