// Lists of calls on a session: what holds of every list. Definitions and proofs; it has no code.
#![tactic(auto)]
