// No code: specs/ has what the calls of palette.rs do, proofs/ the laws and examples of it. The code is palette_nearest,
// palette_remove and palette.
#![tactic(auto)]
