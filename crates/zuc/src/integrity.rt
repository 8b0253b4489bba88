// 128-EIA3: 128-NIA3.
ghost use Rattle.std.specs.Prelude.{◌≡◌, ◌+◌, ◌-◌, ◌*◌, ◌/◌, ◌%◌, ◌^◌, ◌≤◌, length};
ghost use Rattle.streams.specs.Stream.{words};
ghost use Rattle.zuc.specs.Keystream.{work, word};
ghost use Rattle.zuc.specs.Integrity.{code_iv, word_count, code_of, nia3_of};
ghost use Rattle.zuc.specs.Windows.{window_at, moved, pair as pair_of, last_word, some_bits, hash_part};

use crate::keystream::start;
use crate::{State, Window};
use aes::Input;
use streams::{Machine, next_words, pair};

impl Window {
    #[tactic(auto, unfolding(crate::specs::Windows::window_at))]
    fn first(from: State) -> Window
        ensures { result ≡ window_at from 0 }
    {
        let mut state = from;
        let [first, second]: [u32; 2] = next_words(&mut state);
        Window {
            state,
            first,
            second,
        }
    }

    #[tactic(auto, unfolding(crate::specs::Windows::moved))]
    fn advance(&mut self)
        ensures { self.new ≡ moved self.old }
    {
        self.first = self.second;
        self.second = self.state.word();
        self.state.advance();
    }

    #[tactic(auto, unfolding(crate::specs::Windows::pair))]
    fn pair(&self) -> u64
        ensures { result ≡ pair_of self.now }
    {
        pair(self.first, self.second)
    }

    // The word of the key stream at the first bit of octet n.
    fn word_at(&self, n: usize) -> u32
        ensures { result ≡ pair_of self.now / 2 ^ (32 - n % 4 * 8) % 2 ^ 32 }
    {
        ((self.pair() >> (32 - n % 4 * 8)) % 0x1_0000_0000) as u32
    }

    fn last_word(&self, n: usize) -> u32
        ensures { result ≡ last_word self.now n }
    {
        if n % 4 == 0 {
            self.second
        } else {
            self.state.word()
        }
    }
}

// The low 32 bits of y, where the last bit of o is 1.
fn chosen(o: u8, y: u64) -> u32
    ensures { result ≡ o % 2 * (y % 2 ^ 32) }
{
    if o % 2 == 0 {
        0
    } else {
        (y % 0x1_0000_0000) as u32
    }
}

// The eight bits of octet o, under y.
#[tactic(auto, unfolding(crate::specs::Windows::some_bits))]
fn hashed(t: u32, y: u64, o: u8) -> u32
    ensures { result ≡ some_bits t y o 8 }
{
    let mut sum = t;
    for k in 0..8_u32 {
        sum ^= chosen(o >> (7 - k), y >> (8 - k));
    }
    sum
}

// The octets of a part of the message, all under one word of the key stream.
#[tactic(auto, unfolding(crate::specs::Windows::hash_part))]
fn hash_part(t: u32, v: &Window, part: &[u8]) -> u32
    requires { length part.now ≤ 4 }
    ensures { result ≡ hash_part t v.now part.now (length part.now) }
{
    let y = v.pair();
    let mut sum = t;
    for i in 0..part.len() {
        sum = hashed(sum, y >> (24 - i * 8), part[i]);
    }
    sum
}

fn code_with(from: State, m: &[u8]) -> u32
    ensures { result ≡ code_of (words work word (word_count (length m.now * 8)) from) (length m.now * 8) m.now }
{
    let whole = m.len() / 4;
    let mut t: u32 = 0;
    let mut v = Window::first(from);
    for n in 0..whole {
        t = hash_part(t, &v, &m[n * 4..n * 4 + 4]);
        v.advance();
    }
    let rest = hash_part(t, &v, &m[whole * 4..]);
    rest ^ v.word_at(m.len()) ^ v.last_word(m.len())
}

fn code_iv(input: Input) -> [u8; 16]
    ensures { result ≡ code_iv input.count input.bearer input.direction }
{
    let [c0, c1, c2, c3] = input.count.to_be_bytes();
    let b = input.bearer % 32 * 8;
    let d = input.direction % 2 * 128;
    [c0, c1, c2, c3, b, 0, 0, 0, c0 ^ d, c1, c2, c3, b, 0, d, 0]
}

// 128-NIA3.
#[tactic(auto, unfolding(crate::specs::Integrity::nia3_of, crate::specs::Integrity::nia3_bits))]
pub fn nia3(key: [u8; 16], input: Input, message: &[u8]) -> [u8; 4]
    ensures { result ≡ nia3_of key input.count input.bearer input.direction message.now }
{
    code_with(start(key, code_iv(input)), message).to_be_bytes()
}
