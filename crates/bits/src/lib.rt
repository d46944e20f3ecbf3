// Bits and numbers: definitions in specs/, their laws in proofs/. No code.

#![tactic(auto)]
