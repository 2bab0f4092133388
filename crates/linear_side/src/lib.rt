// A linear equation under a data language, as a Markov system.
#![tactic(auto)]
