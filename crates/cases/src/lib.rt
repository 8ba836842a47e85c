// The worked cases of specs/, computed in proofs/. It has no code.
#![tactic(auto)]
