// Model files that are accepted, and one that is refused for each rule at each place.
#![tactic(auto)]

#[cfg(test)]
mod build;
#[cfg(test)]
mod cuts;
#[cfg(test)]
mod faults;
#[cfg(test)]
mod limits;
