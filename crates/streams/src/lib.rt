// Stream ciphers that give words of 32 bits, as SNOW 3G and ZUC do, and the octets of a message under their words.
#![tactic(auto)]

ghost use Rattle.std.specs.Prelude.{◌≡◌, ◌+◌, ◌*◌, ◌^◌, ◌≤◌, ℕ, length};
ghost use Rattle.streams.specs.Words.{shifted};
ghost use Rattle.streams.specs.Covers.{covered};
ghost use Rattle.streams.specs.Stream.{after, words, enciphered};

// The state of a stream cipher.
pub trait Machine: Copy {
    // The state after a turn of initialisation, and after a word.
    ghost initialise: { Self → Self };

    ghost step: { Self → Self };

    // The word that it gives.
    ghost word_of: { Self → ℕ };

    fn mix(&mut self)
        ensures { self.new ≡ initialise self.old };

    fn advance(&mut self)
        ensures { self.new ≡ step self.old };

    fn word(&self) -> u32
        ensures { result ≡ word_of self.now };
}

// 32 turns of initialisation, and one whose word is dropped.
#[tactic(auto, unfolding(crate::specs::Stream::after))]
pub fn started<M: Machine>(loaded: M) -> M
    ensures { result ≡ M.step (after M.initialise 32 loaded) }
{
    let mut machine = loaded;
    for _turn in 0..32_u32 {
        machine.mix();
    }
    machine.advance();
    machine
}

// Word n from a state on, counted from 0.
#[tactic(auto, unfolding(crate::specs::Stream::after))]
pub fn nth_word<M: Machine>(from: M, n: usize) -> u32
    ensures { result ≡ M.word_of (after M.step n from) }
{
    let mut machine = from;
    for _turn in 0..n {
        machine.advance();
    }
    machine.word()
}

// The next N words.
pub fn next_words<M: Machine, const N: usize>(machine: &mut M) -> [u32; N]
    ensures given { result ≡ words M.step M.word_of N machine.old }
    ensures behind { machine.new ≡ after M.step N machine.old }
{
    let mut given = [0; N];
    for i in 0..N {
        given[i] = machine.word();
        machine.advance();
    }
    given
}

// A register moved by one place, with v in the last.
#[tactic(auto, unfolding(crate::specs::Words::shifted))]
pub fn shifted(cells: [u32; 16], v: u32) -> [u32; 16]
    ensures { result ≡ shifted cells v }
{
    [
        cells[1], cells[2], cells[3], cells[4], cells[5], cells[6], cells[7], cells[8], cells[9],
        cells[10], cells[11], cells[12], cells[13], cells[14], cells[15], v,
    ]
}

// Two words as one number.
pub fn pair(a: u32, b: u32) -> u64
    ensures { result ≡ a * 2 ^ 32 + b }
{
    (a as u64) << 32 | b as u64
}

// The n octets of l from i on, with those of k.
#[tactic(auto, unfolding(crate::specs::Covers::covered))]
fn cover(l: &mut [u8], i: usize, k: [u8; 4], n: usize)
    requires { (n ≤ 4) × (i + n ≤ length l.old) }
    ensures { l.new ≡ covered l.old i k n }
{
    // kept: by its index, since a proof knows of what iter_mut lent only the length
    for j in 0..n {
        l[i + j] ^= k[j];
    }
}

// Octets under the words from a state on, in place.
pub fn encipher<M: Machine>(from: M, octets: &mut [u8])
    ensures { octets.new ≡ enciphered M.step M.word_of from octets.old }
{
    let whole = octets.len() / 4;
    let left = octets.len() % 4;
    let mut machine = from;
    for n in 0..whole {
        cover(octets, n * 4, machine.word().to_be_bytes(), 4);
        machine.advance();
    }
    cover(octets, whole * 4, machine.word().to_be_bytes(), left);
}
