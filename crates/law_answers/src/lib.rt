// What each answer says, by its number and values, and the table of what is turned back with its order:
// definitions and laws. It has no code.
#![tactic(auto)]
