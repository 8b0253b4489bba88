// AES-128 (FIPS 197), counter mode (SP 800-38A), CMAC (SP 800-38B), 128-NEA2 and 128-NIA2 (TS 33.501 Annex D).
#![tactic(auto)]

mod cmac_mode;
mod counter_mode;
mod kept;
mod nas;
mod sealing;

pub use aes_block::{encrypt_block, expand_key};
pub use cmac_mode::cmac;
pub use counter_mode::ctr;
pub use nas::{nea2, nia2, protect2};

// A key with what it expands to. Only `Key::of` makes one: its fields are this crate's.
#[repr(C)]
#[derive(Clone, Copy, PartialEq, Eq)]
pub struct Key {
    octets: [u8; 16],
    schedule: [u8; 176],
    subkey1: [u8; 16],
    subkey2: [u8; 16],
}

// What every algorithm is given beside key and octets (TS 33.501 Annex D): COUNT, BEARER and DIRECTION.
#[derive(Clone, Copy, Debug, PartialEq, Eq)]
pub struct Input {
    pub count: u32,
    pub bearer: u8,
    pub direction: u8,
}
