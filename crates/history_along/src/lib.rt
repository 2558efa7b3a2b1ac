// No code: proofs/ has that a state on the way of a session keeps its trace, so that its sheet is one that none of 1 to 3
// refuses.
#![tactic(auto)]
