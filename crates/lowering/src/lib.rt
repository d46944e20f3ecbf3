// Lowering as a writer of records: what ports, cells and banks reserve and emit, and the whole. Definitions and cases; no code.

#![tactic(auto)]
