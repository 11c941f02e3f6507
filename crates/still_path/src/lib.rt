// The theorem of the whole path for the two calls of one still (SCOPE 4.7 and 5). It has no code: the claim is in specs/Calls.antt, the proof in
// proofs/Calls.antt.

#![tactic(auto)]
