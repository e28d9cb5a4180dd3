// No code: specs/ defines the settle table, proofs/ says what holds of it.
#![tactic(auto)]
