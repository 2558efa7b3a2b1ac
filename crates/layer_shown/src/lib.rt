// No code: specs/ has change request E1, "Layers in one symbol": what layers show, both calls and "must equal flattening everything
// afresh", which proofs/ proves.
#![tactic(auto)]
