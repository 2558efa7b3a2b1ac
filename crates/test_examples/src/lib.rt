// No code: specs/ has document 01's starred examples as one group, which proofs/ proves.
#![tactic(auto)]
