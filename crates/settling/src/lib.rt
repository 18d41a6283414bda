// The settling theorem: definitions in specs/, its proof in proofs/. There is no code.
#![tactic(auto)]
