// The record of a state that the specification speaks of, what its fields mean to the rule, and which states are valid: specs/Cache.antt.
// There is no code here: the state runs as bytes (crate layout), and by value on top of that (crate cache_value).

#![tactic(auto)]
