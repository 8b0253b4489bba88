// FIPS 197 5.2: the key expansion.
ghost use Rattle.std.specs.Prelude.{◌≡◌, cond, ◌/◌, ◌%◌, ◌<◌, eqb};
ghost use Rattle.aes_block.specs.Cipher.{turned, next_word, expand_key};

use crate::sbox::sub_word;
use crate::words::{Schedule, Word, word_at, xor_word};

static RCON: [u8; 10] = [1, 2, 4, 8, 16, 32, 64, 128, 27, 54];

fn turned_word(i: usize, t: Word) -> Word
    requires { i < 10 }
    ensures { result ≡ turned i t }
{
    xor_word(sub_word([t[1], t[2], t[3], t[0]]), [RCON[i], 0, 0, 0])
}

fn temp_word(n: usize, t: Word) -> Word
    requires { n < 40 }
    ensures { result ≡ cond (eqb (n % 4) 0) (turned (n / 4) t) t }
{
    if n % 4 == 0 { turned_word(n / 4, t) } else { t }
}

fn next_word(w: &Schedule, n: usize) -> Word
    requires { n < 40 }
    ensures { result ≡ next_word w.now n }
{
    xor_word(word_at(w, n), temp_word(n, word_at(w, n + 3)))
}

// The expanded key: eleven round keys of 16 octets.
pub fn expand_key(key: [u8; 16]) -> Schedule
    ensures { result ≡ expand_key key }
{
    let mut w = [0u8; 176];
    w[..16].copy_from_slice(&key);
    for n in 0..40usize {
        let k = n * 4 + 16;
        let t = next_word(&w, n);
        w[k..k + 4].copy_from_slice(&t);
    }
    w
}
