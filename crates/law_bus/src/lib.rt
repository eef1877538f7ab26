// Ids that fit the bus: those of every command's frame, and of every frame that a call on a session
// wants sent. Definitions and proof; it has no code.
#![tactic(auto)]
