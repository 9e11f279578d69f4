#![tactic(auto)]

// Logged calls, roll-forward and histories of lives as definitions, and the theorems about them. It has no code of its own.
