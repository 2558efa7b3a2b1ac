// No code: specs/ has two sheets on one palette, document 02, E8, and what is promised of them, specs/OnePalette.antt,
// which proofs/ proves. The steps in code are those of `join_palette`, the call is `join`.
#![tactic(auto)]
