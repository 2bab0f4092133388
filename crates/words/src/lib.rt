// What every file of the product is made of: a header, and 16-bit words, high byte first.
#![tactic(auto)]

mod header;
mod put;
mod word;

pub use header::{HeaderFault, check_header};
pub use put::put_word;
pub use word::word_at;
