// Valuations: one value for each variable of a model, and what conditions and actions make of them.
#![tactic(auto)]

mod conditions;
mod fitting;
mod valuation;
mod values;
mod weights;

pub use conditions::{all_hold, holds};
pub use fitting::fit;
pub use valuation::Valuation;
pub use weights::total_weight;
