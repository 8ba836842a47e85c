// What `watch` prints: definitions (specs/) and their laws (proofs/). There is no code here; the crate report computes what these
// definitions say.
#![tactic(auto)]
