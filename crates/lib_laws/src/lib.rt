// No code: specs/ has the laws on lists, bytes and regions that the proofs of the other crates cite.
#![tactic(auto)]
