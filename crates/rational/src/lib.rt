#![tactic(auto)]

// The rational numbers: definitions and laws in specs/. No code.
