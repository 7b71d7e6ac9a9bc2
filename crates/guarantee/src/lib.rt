// Theorems about the model stand in proofs/, and what leads up to them in specs/ too. There is no code here.
#![tactic(auto)]
