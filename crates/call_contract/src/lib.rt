// What a step of the table did, and what holds between the steps of a call: specs/. There is no code.
#![tactic(auto)]
