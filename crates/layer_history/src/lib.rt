// No code: specs/ says what the calls on layers and the calls of a history do together (document 02, E1), which proofs/ proves.
#![tactic(auto)]
