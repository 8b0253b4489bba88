// TS 33.501 Annex D: 128-NIA2 and 128-NEA2.
ghost use Rattle.std.specs.Prelude.{◌≡◌, ◌≤◌, ◌++◌, length, take, drop, replicate};
ghost use Rattle.aes_block.specs.Cipher.{cipher};
ghost use Rattle.aes.specs.Counter.{ctr_of};
ghost use Rattle.aes.specs.Nas.{head as head_of};
ghost use Rattle.aes.specs.Keys.{nia2_by, nea2_by};
ghost use Rattle.aes.specs.Parts.{of_halves};

use crate::cmac_mode::{cmac_from, cmac_with};
use crate::counter_mode::ctr;
use crate::sealing::cipher_and_chain;
use crate::{Input, Key};
use aes_block::Schedule;

fn head(input: Input) -> [u8; 8]
    ensures { result ≡ head_of input.count input.bearer input.direction }
{
    let c = input.count.to_be_bytes();
    let bearer_and_direction = input.bearer % 32 * 8 + input.direction % 2 * 4;
    [c[0], c[1], c[2], c[3], bearer_and_direction, 0, 0, 0]
}

// The code of two numbers that a CMAC is: its first four octets.
fn code_of(h: [u64; 2]) -> [u8; 4]
    ensures { result ≡ take 4 (of_halves h) }
{
    let a = h[0].to_be_bytes();
    [a[0], a[1], a[2], a[3]]
}

// 128-NIA2.
pub fn nia2(key: Key, input: Input, message: &[u8]) -> [u8; 4]
    ensures { result ≡ nia2_by key input.count input.bearer input.direction message.now }
{
    let w = key.schedule;
    let h = head(input);
    code_of(cmac_with(&w, key.subkey1, key.subkey2, &h, message))
}

fn first_counter(input: Input) -> [u8; 16]
    ensures { result ≡ head_of input.count input.bearer input.direction ++ replicate 8 0 }
{
    let h = head(input);
    [
        h[0], h[1], h[2], h[3], h[4], h[5], h[6], h[7], 0, 0, 0, 0, 0, 0, 0, 0,
    ]
}

// By a key's schedule alone: the rest of a key is not copied for it.
fn nea2_under(w: &Schedule, input: Input, m: &mut [u8])
    ensures { m.new ≡ ctr_of (cipher w.now) (head_of input.count input.bearer input.direction ++ replicate 8 0) m.old }
{
    ctr(w, first_counter(input), m);
}

// 128-NEA2, in place.
pub fn nea2(key: Key, input: Input, m: &mut [u8])
    ensures { m.new ≡ nea2_by key input.count input.bearer input.direction m.old }
{
    let w = key.schedule;
    nea2_under(&w, input, m);
}

// The same as `nea2_under` behind the first octet and `nia2` then, side by side.
fn protect_long(integrity_key: Key, w: &Schedule, input: Input, m: &mut [u8]) -> [u8; 4]
    requires { 49 ≤ length m.old }
    ensures ciphered { m.new ≡ take 1 m.old ++ ctr_of (cipher w.now) (head_of input.count input.bearer input.direction ++ replicate 8 0) (drop 1 m.old) }
    ensures code { result ≡ nia2_by integrity_key input.count input.bearer input.direction m.new }
{
    let v = integrity_key.schedule;
    let h = head(input);
    let t = first_counter(input);
    let f = m[0];
    let n = (m.len() - 1) / 16 - 2;
    let x = cipher_and_chain(w, &v, t, f, &mut m[1..]);
    code_of(cmac_from(
        &v,
        integrity_key.subkey1,
        integrity_key.subkey2,
        &h,
        m,
        x,
        n,
    ))
}

// 128-NEA2 of what is behind the first octet, in place, and 128-NIA2 of the whole then.
pub fn protect2(integrity_key: Key, ciphering_key: Key, input: Input, m: &mut [u8]) -> [u8; 4]
    ensures ciphered { m.new ≡ take 1 m.old ++ nea2_by ciphering_key input.count input.bearer input.direction (drop 1 m.old) }
    ensures code { result ≡ nia2_by integrity_key input.count input.bearer input.direction m.new }
{
    let w = ciphering_key.schedule;
    if 128 <= m.len() {
        return protect_long(integrity_key, &w, input, m);
    }
    if 1 < m.len() {
        nea2_under(&w, input, &mut m[1..]);
    }
    nia2(integrity_key, input, m)
}
