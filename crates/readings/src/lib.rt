#![tactic(auto)]

// Readings of a laser held against the boxes of a run (document 02, A.6): definitions in specs/, what is proved of them in proofs/. No code.
