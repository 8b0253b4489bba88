// UIA2: 128-NIA1.
ghost use Rattle.std.specs.Prelude.{◌≡◌, ◌+◌, ◌*◌, ◌/◌, ◌≤◌, length};
ghost use Rattle.snow3g.specs.Uia2.{code_iv, block, eval as eval_of, closed as closed_of, code_under, uia2_of, nia1_of};

use crate::State;
use crate::ciphering::key_words;
use crate::keystream::start;
use crate::mul64::Factor;
use aes::Input;
use streams::{next_words, pair};

// Block i of 8 octets, filled with zeros.
fn block_at(l: &[u8], i: usize) -> u64
    requires { i * 8 ≤ length l.now }
    ensures { result ≡ block l.now i }
{
    let rest = &l[i * 8..];
    let n = rest.len().min(8);
    let mut octets = [0; 8];
    octets[..n].copy_from_slice(&rest[..n]);
    u64::from_be_bytes(octets)
}

fn eval(p: u64, l: &[u8]) -> u64
    ensures { result ≡ eval_of p l.now ((length l.now + 7) / 8) }
{
    let factor = Factor::of(p);
    let mut sum: u64 = 0;
    for i in 0..l.len().div_ceil(8) {
        sum = factor.times(sum ^ block_at(l, i));
    }
    sum
}

fn closed(p: u64, q: u64, l: &[u8]) -> u64
    ensures { result ≡ closed_of p q l.now }
{
    let bits = l.len() as u64 % 0x2000_0000_0000_0000 * 8;
    Factor::of(q).times(eval(p, l) ^ bits)
}

#[tactic(auto, unfolding(crate::specs::Uia2::code_iv))]
fn code_iv(count: u32, fresh: u32, direction: u8) -> [u32; 4]
    ensures { result ≡ code_iv count fresh direction }
{
    let d = direction as u32 % 2;
    [fresh ^ d * 0x8000, count ^ d * 0x8000_0000, fresh, count]
}

fn code_under(from: State, l: &[u8]) -> [u8; 4]
    ensures { result ≡ code_under from l.now }
{
    let mut m = from;
    let [z1, z2, z3, z4, z5]: [u32; 5] = next_words(&mut m);
    let e = closed(pair(z1, z2), pair(z3, z4), l);
    ((e >> 32) as u32 ^ z5).to_be_bytes()
}

// UIA2, with FRESH as a word.
#[tactic(auto, unfolding(crate::specs::Uia2::uia2_of))]
pub fn uia2(key: [u8; 16], count: u32, fresh: u32, direction: u8, l: &[u8]) -> [u8; 4]
    ensures { result ≡ uia2_of key count fresh direction l.now }
{
    code_under(start(key_words(key), code_iv(count, fresh, direction)), l)
}

// 128-NIA1.
#[tactic(auto, unfolding(crate::specs::Uia2::nia1_of))]
pub fn nia1(key: [u8; 16], input: Input, l: &[u8]) -> [u8; 4]
    ensures { result ≡ nia1_of key input.count input.bearer input.direction l.now }
{
    let fresh = input.bearer as u32 % 32 * 0x800_0000;
    uia2(key, input.count, fresh, input.direction, l)
}
