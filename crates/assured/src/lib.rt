// The three demands on the exported calls: theorems whose hypotheses are the public contracts themselves. No code.
#![tactic(auto)]
