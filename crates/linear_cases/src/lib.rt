// Linear files that are read and written back, and linear files that are refused, case by case.
#![tactic(auto)]

#[cfg(test)]
mod files;
#[cfg(test)]
mod refused;
#[cfg(test)]
mod written;
