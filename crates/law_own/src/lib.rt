// Only this motor's frames: what a session takes, and that what it holds came by such frames. Definitions and
// proof; it has no code.
#![tactic(auto)]
