// 128-EEA3: 128-NEA3.
ghost use Rattle.std.specs.Prelude.{◌≡◌};
ghost use Rattle.zuc.specs.Ciphering.{cipher_iv, nea3_of};

use crate::keystream::start;
use aes::Input;
use streams::encipher;

fn cipher_iv(input: Input) -> [u8; 16]
    ensures { result ≡ cipher_iv input.count input.bearer input.direction }
{
    let [c0, c1, c2, c3] = input.count.to_be_bytes();
    let b = input.bearer % 32 * 8 + input.direction % 2 * 4;
    [c0, c1, c2, c3, b, 0, 0, 0, c0, c1, c2, c3, b, 0, 0, 0]
}

// 128-NEA3, in place.
#[tactic(auto, unfolding(crate::specs::Ciphering::nea3_of))]
pub fn nea3(key: [u8; 16], input: Input, m: &mut [u8])
    ensures { m.new ≡ nea3_of key input.count input.bearer input.direction m.old }
{
    encipher(start(key, cipher_iv(input)), m);
}
