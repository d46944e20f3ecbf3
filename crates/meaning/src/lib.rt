// What the records of a lowered netlist mean on its wires. Definitions and theorems; no code.

#![tactic(auto)]
