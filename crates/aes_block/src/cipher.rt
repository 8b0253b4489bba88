// FIPS 197 5.1: the cipher, one block under an expanded key.
ghost use Rattle.std.specs.Prelude.{◌≡◌, ◌∷◌, [], ◌≤◌, ◌<◌, get_or};
ghost use Rattle.aes_block.specs.Octets.{four, xor};
ghost use Rattle.aes_block.specs.Field.{sbox};
ghost use Rattle.aes_block.specs.Cipher.{to_state, from_state, sub_bytes, shift_rows, mixed, mix_columns, word, add_round_key, rounds, cipher};

use crate::columns::{mixed_octets, unmixed_octets};
use crate::words::{Schedule, State, Word, word_at, xor_word};

fn keyed_column(w: &Schedule, i: usize, t: Word) -> Word
    requires { i < 44 }
    ensures { result ≡ xor t (word w.now i) }
{
    xor_word(t, word_at(w, i))
}

pub fn add_round_key(w: &Schedule, n: usize, s: State) -> State
    requires { n ≤ 10 }
    ensures { result ≡ add_round_key w.now n s }
{
    let i = n * 4;
    [
        keyed_column(w, i, s[0]),
        keyed_column(w, i + 1, s[1]),
        keyed_column(w, i + 2, s[2]),
        keyed_column(w, i + 3, s[3]),
    ]
}

pub fn to_state(b: [u8; 16]) -> State
    ensures { result ≡ to_state b }
{
    [
        [b[0], b[1], b[2], b[3]],
        [b[4], b[5], b[6], b[7]],
        [b[8], b[9], b[10], b[11]],
        [b[12], b[13], b[14], b[15]],
    ]
}

pub fn from_state(s: State) -> [u8; 16]
    ensures { result ≡ from_state s }
{
    [
        s[0][0], s[0][1], s[0][2], s[0][3], s[1][0], s[1][1], s[1][2], s[1][3], s[2][0], s[2][1],
        s[2][2], s[2][3], s[3][0], s[3][1], s[3][2], s[3][3],
    ]
}

pub fn xor_states(a: State, b: State) -> State
    ensures { result ≡ to_state (xor (from_state a) (from_state b)) }
{
    [
        xor_word(a[0], b[0]),
        xor_word(a[1], b[1]),
        xor_word(a[2], b[2]),
        xor_word(a[3], b[3]),
    ]
}

// The new column of which the octets stand in the rows of four columns.
fn mixed_column(w: &Schedule, i: usize, a: Word, b: Word, c: Word, d: Word) -> Word
    requires { i < 44 }
    ensures { result ≡ xor (four (mixed (sbox (get_or a 0 0) ∷ sbox (get_or b 1 0) ∷ sbox (get_or c 2 0) ∷ sbox (get_or d 3 0) ∷ []))) (word w.now i) }
{
    mixed_octets(word_at(w, i), a[0], b[1], c[2], d[3])
}

pub fn middle_round(w: &Schedule, n: usize, s: State) -> State
    requires { n ≤ 10 }
    ensures { result ≡ add_round_key w.now n (mix_columns (shift_rows (sub_bytes s))) }
{
    let i = n * 4;
    let a = s[0];
    let b = s[1];
    let c = s[2];
    let d = s[3];
    [
        mixed_column(w, i, a, b, c, d),
        mixed_column(w, i + 1, b, c, d, a),
        mixed_column(w, i + 2, c, d, a, b),
        mixed_column(w, i + 3, d, a, b, c),
    ]
}

pub fn last_column(w: &Schedule, i: usize, a: Word, b: Word, c: Word, d: Word) -> Word
    requires { i < 44 }
    ensures { result ≡ xor (sbox (get_or a 0 0) ∷ sbox (get_or b 1 0) ∷ sbox (get_or c 2 0) ∷ sbox (get_or d 3 0) ∷ []) (word w.now i) }
{
    unmixed_octets(word_at(w, i), a[0], b[1], c[2], d[3])
}

fn last_round(w: &Schedule, s: State) -> State
    ensures { result ≡ add_round_key w.now 10 (shift_rows (sub_bytes s)) }
{
    let a = s[0];
    let b = s[1];
    let c = s[2];
    let d = s[3];
    [
        last_column(w, 40, a, b, c, d),
        last_column(w, 41, b, c, d, a),
        last_column(w, 42, c, d, a, b),
        last_column(w, 43, d, a, b, c),
    ]
}

// Written out, and each called at one place, so that the state stays in registers.
// kept: a `for` over the rounds takes 67 % more time for a code, and one function of all nine 19 %.
fn rounds_to_3(w: &Schedule, s: State) -> State
    ensures { result ≡ rounds w.now 3 s }
{
    let a = middle_round(w, 1, s);
    let b = middle_round(w, 2, a);
    middle_round(w, 3, b)
}

fn rounds_to_6(w: &Schedule, s: State) -> State
    ensures { result ≡ rounds w.now 6 s }
{
    let a = middle_round(w, 4, rounds_to_3(w, s));
    let b = middle_round(w, 5, a);
    middle_round(w, 6, b)
}

fn rounds_to_9(w: &Schedule, s: State) -> State
    ensures { result ≡ rounds w.now 9 s }
{
    let a = middle_round(w, 7, rounds_to_6(w, s));
    let b = middle_round(w, 8, a);
    middle_round(w, 9, b)
}

// The state that a block ends in. Called at one place of each loop, so that it is inlined there.
pub fn encrypt_state(w: &Schedule, s: State) -> State
    ensures { result ≡ to_state (cipher w.now (from_state s)) }
{
    last_round(w, rounds_to_9(w, add_round_key(w, 0, s)))
}

// One block under an expanded key.
pub fn encrypt_block(w: &Schedule, b: [u8; 16]) -> [u8; 16]
    ensures { result ≡ cipher w.now b }
{
    from_state(encrypt_state(w, to_state(b)))
}
