#![tactic(auto)]

// What a 32-bit float is exactly, and the tests on floats that decide as the exact numbers do. Definitions and laws in specs/. No code.
