// The form of an accepted model: which slots and statements it has, and that it is sound. Definitions and theorems; no code.

#![tactic(auto)]
