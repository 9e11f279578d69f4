#![tactic(auto)]

// The rules of the store as definitions, and the theorems about them. It has no code of its own.
