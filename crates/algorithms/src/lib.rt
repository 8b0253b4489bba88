// An algorithm by its code (TS 24.501 Table 9.11.3.34.1): 0 is null, 1 SNOW 3G, 2 AES and 3 ZUC.
#![tactic(auto)]

ghost use Rattle.std.specs.Prelude.{◌≡◌, ◌&&◌, ◌++◌, eqb, take, drop};
ghost use Rattle.algorithms.specs.Codes.{is_built, code_of, cipher_of};

use aes::{Input, Key};

// kept: an algorithm is a number, not an enum: a context of C holds any octet here, and `code` and `cipher` answer for each.
#[tactic(auto, unfolding(crate::specs::Codes::is_built))]
pub fn built(algorithm: u8) -> bool
    ensures { result ≡ is_built algorithm }
{
    algorithm < 4
}

// The code of a message. SNOW 3G and ZUC take a key's 16 octets as they are.
#[tactic(auto, unfolding(crate::specs::Codes::code_of))]
pub fn code(algorithm: u8, key: Key, input: Input, message: &[u8]) -> [u8; 4]
    ensures { result ≡ code_of algorithm key input.count input.bearer input.direction message.now }
{
    match algorithm {
        1 => snow3g::nia1(key.octets(), input, message),
        2 => aes::nia2(key, input, message),
        3 => zuc::nia3(key.octets(), input, message),
        _ => [0; 4],
    }
}

// The octets ciphered, or deciphered, where they lie.
#[tactic(auto, unfolding(crate::specs::Codes::cipher_of))]
pub fn cipher(algorithm: u8, key: Key, input: Input, octets: &mut [u8])
    ensures { octets.new ≡ cipher_of algorithm key input.count input.bearer input.direction octets.old }
{
    match algorithm {
        1 => snow3g::nea1(key.octets(), input, octets),
        2 => aes::nea2(key, input, octets),
        3 => zuc::nea3(key.octets(), input, octets),
        _ => {}
    }
}

fn are_aes(integrity: u8, ciphering: u8) -> bool
    ensures { result ≡ eqb integrity 2 && eqb ciphering 2 }
{
    integrity == 2 && ciphering == 2
}

// What is behind the first octet ciphered where it lies, and the code of the whole then: in one call where both algorithms are AES.
pub fn protect(
    integrity: u8,
    ciphering: u8,
    integrity_key: Key,
    ciphering_key: Key,
    input: Input,
    octets: &mut [u8],
) -> [u8; 4]
    ensures ciphered { octets.new ≡ take 1 octets.old ++ cipher_of ciphering ciphering_key input.count input.bearer input.direction (drop 1 octets.old) }
    ensures code { result ≡ code_of integrity integrity_key input.count input.bearer input.direction octets.new }
{
    if are_aes(integrity, ciphering) {
        return aes::protect2(integrity_key, ciphering_key, input, octets);
    }
    if 1 < octets.len() {
        cipher(ciphering, ciphering_key, input, &mut octets[1..]);
    }
    code(integrity, integrity_key, input, octets)
}
