// The bench sheet. Its starred cases are one computed table in proofs/.
#![tactic(auto)]
