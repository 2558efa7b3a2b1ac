// No code: specs/ has the lines of an input and what a program prints that answers line by line, whatever a line does;
// proofs/ the laws of such a program that gets its input in chunks.
#![tactic(auto)]
