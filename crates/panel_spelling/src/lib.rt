// No code: specs/ has change request E10, "One spelling of a sheet", for `spell` and `read_sheet`, which proofs/ proves.
#![tactic(auto)]
