// Demand 3: the run over the two wires and the plain reading of a list agree. There is no code here; the theorems stand in proofs/.
#![tactic(auto)]
