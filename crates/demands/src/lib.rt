// The three demands: what their words mean, and theorems from the exported contracts (`rules/specs/Host`). No code.
#![tactic(auto)]
