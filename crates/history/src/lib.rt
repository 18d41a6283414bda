// Demand 3 of the words in memory: lists of calls made on lent words. Definitions in specs/, proofs in proofs/. There is no code.
#![tactic(auto)]
