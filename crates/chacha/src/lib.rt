// The ChaCha20 block function of RFC 8439, and a hash of labels built on it.
#![tactic(auto)]

mod blocks;
mod hash;
mod rounds;

pub use blocks::block;
pub use hash::ChaChaHash;
pub use rounds::quarter_round;
