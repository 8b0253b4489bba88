// The bit reorganisation, and F.
ghost use Rattle.std.specs.Prelude.{◌≡◌, ◌/◌, ◌%◌, ◌^◌};
ghost use Rattle.zuc.specs.Words.{joined};
ghost use Rattle.zuc.specs.Nonlinear.{x0, x1, x2, x3, boxes, l1, l2, w, w1, w2, r1_of, r2_of};

use crate::State;
use crate::tables::{sub_s0, sub_s1};

fn substituted(x: u32) -> u32
    ensures { result ≡ boxes x }
{
    let [a, b, c, d] = x.to_be_bytes();
    u32::from_be_bytes([sub_s0(a), sub_s1(b), sub_s0(c), sub_s1(d)])
}

// kept: L1 and L2, R1 and R2, X1 to X3 are the standard's names, each one line: a parameter for the turns or the cells would name none of them.
fn linear1(x: u32) -> u32
    ensures { result ≡ l1 x }
{
    x ^ x.rotate_left(2) ^ x.rotate_left(10) ^ x.rotate_left(18) ^ x.rotate_left(24)
}

fn linear2(x: u32) -> u32
    ensures { result ≡ l2 x }
{
    x ^ x.rotate_left(8) ^ x.rotate_left(14) ^ x.rotate_left(22) ^ x.rotate_left(30)
}

// sH of one cell and sL of another, and the other way round.
fn high_low(a: u32, b: u32) -> u32
    ensures { result ≡ joined (a / 2 ^ 15 % 2 ^ 16) (b % 2 ^ 16) }
{
    a / 0x8000 % 0x1_0000 * 0x1_0000 + b % 0x1_0000
}

fn low_high(a: u32, b: u32) -> u32
    ensures { result ≡ joined (a % 2 ^ 16) (b / 2 ^ 15 % 2 ^ 16) }
{
    a % 0x1_0000 * 0x1_0000 + b / 0x8000 % 0x1_0000
}

// The low half of one word and the high half of another.
fn crossed(a: u32, b: u32) -> u32
    ensures { result ≡ joined (a % 2 ^ 16) (b / 2 ^ 16) }
{
    a % 0x1_0000 * 0x1_0000 + b / 0x1_0000
}

impl State {
    // X0, X1, X2 and X3.
    #[tactic(auto, unfolding(crate::specs::Nonlinear::x0))]
    fn part0(&self) -> u32
        ensures { result ≡ x0 self.now.cells }
    {
        high_low(self.cells[15], self.cells[14])
    }

    #[tactic(auto, unfolding(crate::specs::Nonlinear::x1))]
    fn part1(&self) -> u32
        ensures { result ≡ x1 self.now.cells }
    {
        low_high(self.cells[11], self.cells[9])
    }

    #[tactic(auto, unfolding(crate::specs::Nonlinear::x2))]
    fn part2(&self) -> u32
        ensures { result ≡ x2 self.now.cells }
    {
        low_high(self.cells[7], self.cells[5])
    }

    #[tactic(auto, unfolding(crate::specs::Nonlinear::x3))]
    pub fn part3(&self) -> u32
        ensures { result ≡ x3 self.now.cells }
    {
        low_high(self.cells[2], self.cells[0])
    }

    // W, W1 and W2.
    #[tactic(auto, unfolding(crate::specs::Nonlinear::w))]
    pub fn output(&self) -> u32
        ensures { result ≡ w self.now }
    {
        (self.part0() ^ self.r1).wrapping_add(self.r2)
    }

    #[tactic(auto, unfolding(crate::specs::Nonlinear::w1))]
    fn output1(&self) -> u32
        ensures { result ≡ w1 self.now }
    {
        self.r1.wrapping_add(self.part1())
    }

    #[tactic(auto, unfolding(crate::specs::Nonlinear::w2))]
    fn output2(&self) -> u32
        ensures { result ≡ w2 self.now }
    {
        self.r2 ^ self.part2()
    }

    #[tactic(auto, unfolding(crate::specs::Nonlinear::r1_of))]
    pub fn next_r1(&self) -> u32
        ensures { result ≡ r1_of self.now }
    {
        substituted(linear1(crossed(self.output1(), self.output2())))
    }

    #[tactic(auto, unfolding(crate::specs::Nonlinear::r2_of))]
    pub fn next_r2(&self) -> u32
        ensures { result ≡ r2_of self.now }
    {
        substituted(linear2(crossed(self.output2(), self.output1())))
    }
}
