// What the rules mean: theorems about the definitions of `rules`. No code.
#![tactic(auto)]
