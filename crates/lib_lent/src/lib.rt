// No code: proofs/ has the walks by hand over a struct that is lent by `&mut`, once for any struct and contract.
#![tactic(auto)]
