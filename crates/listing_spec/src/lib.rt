// The text that the program kitlist prints (document 01): its definition in specs/, and its laws in proofs/.

#![tactic(auto)]
