// A model under a data language, as a Markov system of terms.
#![tactic(auto)]
