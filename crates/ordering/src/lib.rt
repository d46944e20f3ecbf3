// The order in which a model's expressions can be evaluated, and refusal 13 (theory).

#![tactic(auto)]
