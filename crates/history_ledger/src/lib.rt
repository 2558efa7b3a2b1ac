// No code: specs/ has the history handle and its steps, the calls of a history over any sheet, and document 01's
// demand 3 of them, specs/Demand.antt, which proofs/ proves. The steps in code are `history_handle`'s.
#![tactic(auto)]
