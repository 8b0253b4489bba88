// Key loading, initialisation and the words of the key stream.
ghost use Rattle.std.specs.Prelude.{◌≡◌, ◌+◌, ◌*◌, ◌^◌, ◌<◌};
ghost use Rattle.streams.specs.Stream.{after};
ghost use Rattle.zuc.specs.Keystream.{load, clock, initialise, work, start as start_of, word};

use crate::State;
use crate::register::shifted;
use streams::{Machine, nth_word, started};

impl State {
    #[tactic(auto, unfolding(crate::specs::Keystream::clock))]
    fn clocked(&self, u: u32) -> State
        ensures { result ≡ clock u self.now }
    {
        State {
            cells: shifted(self.cells, u),
            r1: self.next_r1(),
            r2: self.next_r2(),
        }
    }
}

impl Machine for State {
    ghost initialise = { initialise };

    ghost step = { work };

    ghost word_of = { word };

    #[tactic(auto, unfolding(crate::specs::Keystream::initialise))]
    fn mix(&mut self) {
        *self = self.clocked(self.output() / 2);
    }

    #[tactic(auto, unfolding(crate::specs::Keystream::work))]
    fn advance(&mut self) {
        *self = self.clocked(0);
    }

    #[tactic(auto, unfolding(crate::specs::Keystream::word))]
    fn word(&self) -> u32 {
        self.output() ^ self.part3()
    }
}

fn loaded_cell(k: u8, d: u32, v: u8) -> u32
    requires { d < 2 ^ 15 }
    ensures { result ≡ k * 2 ^ 23 + d * 2 ^ 8 + v }
{
    k as u32 * 0x80_0000 + d * 0x100 + v as u32
}

#[tactic(auto, unfolding(crate::specs::Keystream::load))]
fn loaded(k: [u8; 16], v: [u8; 16]) -> State
    ensures { result ≡ load k v }
{
    let cells = [
        loaded_cell(k[0], 0x44d7, v[0]),
        loaded_cell(k[1], 0x26bc, v[1]),
        loaded_cell(k[2], 0x626b, v[2]),
        loaded_cell(k[3], 0x135e, v[3]),
        loaded_cell(k[4], 0x5789, v[4]),
        loaded_cell(k[5], 0x35e2, v[5]),
        loaded_cell(k[6], 0x7135, v[6]),
        loaded_cell(k[7], 0x09af, v[7]),
        loaded_cell(k[8], 0x4d78, v[8]),
        loaded_cell(k[9], 0x2f13, v[9]),
        loaded_cell(k[10], 0x6bc4, v[10]),
        loaded_cell(k[11], 0x1af1, v[11]),
        loaded_cell(k[12], 0x5e26, v[12]),
        loaded_cell(k[13], 0x3c4d, v[13]),
        loaded_cell(k[14], 0x789a, v[14]),
        loaded_cell(k[15], 0x47ac, v[15]),
    ];
    State {
        cells,
        r1: 0,
        r2: 0,
    }
}

#[tactic(auto, unfolding(crate::specs::Keystream::start))]
pub fn start(key: [u8; 16], iv: [u8; 16]) -> State
    ensures { result ≡ start_of key iv }
{
    started(loaded(key, iv))
}

// Word n of the key stream under a key and an IV, counted from 0.
pub fn stream_word(key: [u8; 16], iv: [u8; 16], n: usize) -> u32
    ensures { result ≡ word (after work n (start_of key iv)) }
{
    nth_word(start(key, iv), n)
}
