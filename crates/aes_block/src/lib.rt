// AES-128 (FIPS 197) by a table: one block, two side by side, and the key expansion.
#![tactic(auto)]

mod cipher;
mod columns;
mod expansion;
mod pairs;
mod sbox;
mod shared_rounds;
mod words;

pub use cipher::{encrypt_block, encrypt_state, from_state, to_state, xor_states};
pub use expansion::expand_key;
pub use pairs::{left, right, two_states};
pub use shared_rounds::{second_state, shared, two_rounds};
pub use words::{Schedule, State, Word};
