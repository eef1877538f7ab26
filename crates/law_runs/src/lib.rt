// What each phase of a run may still want, and what the end of a wait has seen: definitions and laws.
// It has no code.
#![tactic(auto)]
