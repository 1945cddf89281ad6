// Demand 3 in the abstract. There is nothing to run: the definitions stand in specs/, the theorems in proofs/.

#![tactic(auto)]
