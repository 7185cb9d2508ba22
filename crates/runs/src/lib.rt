#![tactic(auto)]

// What a program that calls the C functions has of demand 3 stands in specs/, its laws in proofs/; the program's functions are `preparing`, `stepping` and `program`.
