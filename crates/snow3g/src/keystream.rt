// Initialisation, and the words of the keystream.
ghost use Rattle.std.specs.Prelude.{◌≡◌};
ghost use Rattle.streams.specs.Stream.{after};
ghost use Rattle.snow3g.specs.Keystream.{load, initialise, step, start as start_of, keyword};

use crate::State;
use streams::{Machine, nth_word, started};

impl Machine for State {
    ghost initialise = { initialise };

    ghost step = { step };

    ghost word_of = { keyword };

    #[tactic(auto, unfolding(crate::specs::Keystream::initialise))]
    fn mix(&mut self) {
        *self = self.clocked(self.output());
    }

    #[tactic(auto, unfolding(crate::specs::Keystream::step))]
    fn advance(&mut self) {
        *self = self.clocked(0);
    }

    #[tactic(auto, unfolding(crate::specs::Keystream::keyword))]
    fn word(&self) -> u32 {
        self.output() ^ self.s[0]
    }
}

#[tactic(auto, unfolding(crate::specs::Keystream::load))]
fn loaded(k: [u32; 4], iv: [u32; 4]) -> State
    ensures { result ≡ load k iv }
{
    let [k0, k1, k2, k3] = k;
    let [iv0, iv1, iv2, iv3] = iv;
    let s = [
        !k0,
        !k1,
        !k2,
        !k3,
        k0,
        k1,
        k2,
        k3,
        !k0,
        !k1 ^ iv3,
        !k2 ^ iv2,
        !k3,
        k0 ^ iv1,
        k1,
        k2,
        k3 ^ iv0,
    ];
    State {
        s,
        r1: 0,
        r2: 0,
        r3: 0,
    }
}

#[tactic(auto, unfolding(crate::specs::Keystream::start))]
pub fn start(k: [u32; 4], iv: [u32; 4]) -> State
    ensures { result ≡ start_of k iv }
{
    started(loaded(k, iv))
}

// Word n of the keystream, counted from 0, under the key words k and the initialisation words iv.
pub fn keystream_word(k: [u32; 4], iv: [u32; 4], n: usize) -> u32
    ensures { result ≡ keyword (after step n (start_of k iv)) }
{
    nth_word(start(k, iv), n)
}
