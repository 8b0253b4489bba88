// ZUC (TS 35.222), 128-EEA3 and 128-EIA3 (TS 35.221): 128-NEA3 and 128-NIA3 (TS 33.501 Annex D).
#![tactic(auto)]

mod ciphering;
mod integrity;
mod keystream;
mod nonlinear;
mod register;
mod tables;

pub use ciphering::nea3;
pub use integrity::nia3;
pub use keystream::stream_word;

// The LFSR's cells s0 .. s15, and F's R1 and R2.
#[derive(Clone, Copy)]
pub struct State {
    pub cells: [u32; 16],
    pub r1: u32,
    pub r2: u32,
}

// Two words of the key stream that follow each other, and the state behind them.
#[derive(Clone, Copy)]
pub struct Window {
    pub state: State,
    pub first: u32,
    pub second: u32,
}
