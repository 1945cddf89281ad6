// 02, E6, in the abstract: stop and wait. There is nothing to run: the definitions stand in specs/, the theorems in proofs/.

#![tactic(auto)]
