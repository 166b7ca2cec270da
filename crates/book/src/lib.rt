// The sales book as words: its entries, when it is sound, the two changes that it can have, and what it comes to.
#![tactic(auto)]

pub mod changes;
pub mod entries;
mod numbers;
pub mod sound;
mod status;
pub mod sums;
mod words;

pub use status::Status;
pub use words::CAPACITY;
