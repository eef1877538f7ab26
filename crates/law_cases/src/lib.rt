// The worked cases of the request that are marked to be proved, and cases beside them, as tables over the
// definitions. It has no code.
#![tactic(auto)]
