#![tactic(auto)]

// Definitions and lemmas on choices and lists, for the specifications of every crate above. It has no code of its own.
