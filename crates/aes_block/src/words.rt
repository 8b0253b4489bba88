// Words of four octets.
ghost use Rattle.std.specs.Prelude.{◌≡◌, ◌<◌};
ghost use Rattle.aes_block.specs.Octets.{xor};
ghost use Rattle.aes_block.specs.Cipher.{word};

// FIPS 197 5.2: the expanded key, 44 words in a row.
pub type Schedule = [u8; 176];

pub type Word = [u8; 4];

// FIPS 197 3.4: four columns.
pub type State = [Word; 4];

pub fn xor_word(a: Word, b: Word) -> Word
    ensures { result ≡ xor a b }
{
    [a[0] ^ b[0], a[1] ^ b[1], a[2] ^ b[2], a[3] ^ b[3]]
}

// Word i of an expanded key.
pub fn word_at(w: &Schedule, i: usize) -> Word
    requires { i < 44 }
    ensures { result ≡ word w.now i }
{
    let k = i * 4;
    [w[k], w[k + 1], w[k + 2], w[k + 3]]
}
