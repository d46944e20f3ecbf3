// A lowered model shows what the netlist's own cells show. Definitions and theorems; no code.

#![tactic(auto)]
