// Explorations of small systems, and a layer that is walked, played and explored.
#![tactic(auto)]

#[cfg(test)]
mod explorations;
#[cfg(test)]
mod layers;
