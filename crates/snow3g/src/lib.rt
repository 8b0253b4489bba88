// SNOW 3G (TS 35.216), UEA2 and UIA2 (TS 35.215): 128-NEA1 and 128-NIA1 (TS 33.501 Annex D).
#![tactic(auto)]

mod boxes;
mod ciphering;
mod integrity;
mod keystream;
mod machine;
mod mul64;
mod tables;

pub use ciphering::nea1;
pub use integrity::{nia1, uia2};
pub use keystream::keystream_word;

// The shift register and the three words of the state machine.
#[derive(Clone, Copy)]
pub struct State {
    pub s: [u32; 16],
    pub r1: u32,
    pub r2: u32,
    pub r3: u32,
}
