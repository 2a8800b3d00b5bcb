// Inputs that come in pieces, for any machine that takes field after field: definitions in specs/, laws and theorems in proofs/. No code.
// A part of what reads an input in pieces.

#![tactic(auto)]
