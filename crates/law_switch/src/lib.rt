// Demand 3: what holds of every mode switch in every list of calls on a session. Definitions and
// proof; it has no code.
#![tactic(auto)]
