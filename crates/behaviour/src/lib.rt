// What a netlist's own cells do: the wire map and the tick rule. Definitions and theorems; no code.

#![tactic(auto)]
