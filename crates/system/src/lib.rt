// Systems of moves and delays, and walks over any of them.
#![tactic(auto)]

mod answers;
mod playing;
mod printing;
mod refusal;
mod rows;
mod system;
mod trail;
mod walk;

pub use answers::{Call, Label, Rate, Step, Weight};
pub use playing::play;
pub use refusal::Refusal;
pub use rows::first_row;
pub use system::{Markov, System};
pub use walk::Walk;
