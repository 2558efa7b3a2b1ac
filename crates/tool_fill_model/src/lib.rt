// No code: specs/ has what the fills do, proofs/ the laws and examples of it. The code is tool_flood, tool_flood_fill and
// tool_replace.
#![tactic(auto)]
