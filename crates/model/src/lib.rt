#![tactic(auto)]

// Document 01 made executable, and what is proved of it: specs/ and proofs/. No code.
