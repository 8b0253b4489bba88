// The shift register and the state machine.
ghost use Rattle.std.specs.Prelude.{◌≡◌};
ghost use Rattle.snow3g.specs.Machine.{feedback as feedback_of, output as output_of, clock as clock_of};

use crate::State;
use crate::boxes::{s1_word, s2_word};
use crate::tables::{DIV, MUL};
use streams::shifted;

fn feedback(s0: u32, s2: u32, s11: u32, f: u32) -> u32
    ensures { result ≡ feedback_of s0 s2 s11 f }
{
    let a = MUL[(s0 >> 24) as usize];
    let d = DIV[(s11 % 256) as usize];
    (s0 << 8) ^ a ^ s2 ^ (s11 >> 8) ^ d ^ f
}

impl State {
    // F, the output of the state machine.
    #[tactic(auto, unfolding(crate::specs::Machine::output))]
    pub fn output(&self) -> u32
        ensures { result ≡ output_of self.now }
    {
        self.s[15].wrapping_add(self.r1) ^ self.r2
    }

    // The state machine clocked, and the register with f.
    #[tactic(auto, unfolding(crate::specs::Machine::clock))]
    pub fn clocked(&self, f: u32) -> State
        ensures { result ≡ clock_of self.now f }
    {
        let s = self.s;
        let v = feedback(s[0], s[2], s[11], f);
        State {
            s: shifted(s, v),
            r1: self.r2.wrapping_add(self.r3 ^ s[5]),
            r2: s1_word(self.r1),
            r3: s2_word(self.r2),
        }
    }
}
