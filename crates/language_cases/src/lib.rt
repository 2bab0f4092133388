// Data files that are read, and data files that are refused, case by case.
#![tactic(auto)]

#[cfg(test)]
mod files;
#[cfg(test)]
mod formulas;
#[cfg(test)]
mod tables;
