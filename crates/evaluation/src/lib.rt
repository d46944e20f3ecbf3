// The values of a model's expressions as bytes 0 or 1, one a bit, the lowest first (theory).

#![tactic(auto)]
