// The definitions of `rules`, run on cases that the brute force made (tests/brute). No code.
#![tactic(auto)]
