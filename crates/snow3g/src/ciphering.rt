// UEA2: 128-NEA1.
ghost use Rattle.std.specs.Prelude.{◌≡◌};
ghost use Rattle.snow3g.specs.Uea2.{key_words, cipher_iv, nea1_of};

use crate::keystream::start;
use aes::Input;
use streams::encipher;

pub fn key_words(key: [u8; 16]) -> [u32; 4]
    ensures { result ≡ key_words key }
{
    [
        u32::from_be_bytes([key[12], key[13], key[14], key[15]]),
        u32::from_be_bytes([key[8], key[9], key[10], key[11]]),
        u32::from_be_bytes([key[4], key[5], key[6], key[7]]),
        u32::from_be_bytes([key[0], key[1], key[2], key[3]]),
    ]
}

#[tactic(auto, unfolding(crate::specs::Uea2::cipher_iv))]
fn cipher_iv(input: Input) -> [u32; 4]
    ensures { result ≡ cipher_iv input.count input.bearer input.direction }
{
    let b = input.bearer as u32 % 32 * 0x800_0000 + input.direction as u32 % 2 * 0x400_0000;
    [b, input.count, b, input.count]
}

// 128-NEA1, in place.
#[tactic(auto, unfolding(crate::specs::Uea2::nea1_of))]
pub fn nea1(key: [u8; 16], input: Input, l: &mut [u8])
    ensures { l.new ≡ nea1_of key input.count input.bearer input.direction l.old }
{
    encipher(start(key_words(key), cipher_iv(input)), l);
}
