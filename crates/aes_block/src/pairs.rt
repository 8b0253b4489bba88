// Two blocks side by side, each under its own expanded key, from what two rounds have made of them on: a round of the one beside the
// same round of the other.
ghost use Rattle.std.specs.Prelude.{◌≡◌, [], ◌++◌, ◌+◌, get_or};
ghost use Rattle.aes_block.specs.Octets.{four};
ghost use Rattle.aes_block.specs.Cipher.{sub_bytes, shift_rows, add_round_key};
ghost use Rattle.aes_block.specs.Mix.{onward, ended};

use crate::cipher::{last_column, middle_round};
use crate::words::{Schedule, State, Word};

// Two states as eight columns.
// kept: two states as a pair, with their rounds in one function, take 9 % more time for 8,192 octets.
fn beside(a: State, b: State) -> [Word; 8]
    ensures { result ≡ four (λ c. get_or a c []) ++ four (λ c. get_or b c []) }
{
    [a[0], a[1], a[2], a[3], b[0], b[1], b[2], b[3]]
}

pub fn left(s: [Word; 8]) -> State
    ensures { result ≡ four (λ c. get_or s c []) }
{
    [s[0], s[1], s[2], s[3]]
}

pub fn right(s: [Word; 8]) -> State
    ensures { result ≡ four (λ c. get_or s (c + 4) []) }
{
    [s[4], s[5], s[6], s[7]]
}

fn two_to_3(w: &Schedule, v: &Schedule, p: State, q: State) -> [Word; 8]
    ensures { result ≡ onward w.now 1 p ++ onward v.now 1 q }
{
    let a = middle_round(w, 3, p);
    beside(a, middle_round(v, 3, q))
}

fn two_to_6(w: &Schedule, v: &Schedule, p: State, q: State) -> [Word; 8]
    ensures { result ≡ onward w.now 4 p ++ onward v.now 4 q }
{
    let s = two_to_3(w, v, p, q);
    let a = middle_round(w, 4, left(s));
    let b = middle_round(v, 4, right(s));
    let c = middle_round(w, 5, a);
    let d = middle_round(v, 5, b);
    let e = middle_round(w, 6, c);
    beside(e, middle_round(v, 6, d))
}

fn two_to_9(w: &Schedule, v: &Schedule, p: State, q: State) -> [Word; 8]
    ensures { result ≡ onward w.now 7 p ++ onward v.now 7 q }
{
    let s = two_to_6(w, v, p, q);
    let a = middle_round(w, 7, left(s));
    let b = middle_round(v, 7, right(s));
    let c = middle_round(w, 8, a);
    let d = middle_round(v, 8, b);
    let e = middle_round(w, 9, c);
    beside(e, middle_round(v, 9, d))
}

fn two_last(w: &Schedule, v: &Schedule, s: [Word; 8]) -> [Word; 8]
    ensures { result ≡ add_round_key w.now 10 (shift_rows (sub_bytes (four (λ c. get_or s c [])))) ++ add_round_key v.now 10 (shift_rows (sub_bytes (four (λ c. get_or s (c + 4) [])))) }
{
    let a = s[0];
    let b = s[1];
    let c = s[2];
    let d = s[3];
    let e = s[4];
    let f = s[5];
    let g = s[6];
    let h = s[7];
    [
        last_column(w, 40, a, b, c, d),
        last_column(w, 41, b, c, d, a),
        last_column(w, 42, c, d, a, b),
        last_column(w, 43, d, a, b, c),
        last_column(v, 40, e, f, g, h),
        last_column(v, 41, f, g, h, e),
        last_column(v, 42, g, h, e, f),
        last_column(v, 43, h, e, f, g),
    ]
}

// The states that both blocks end in.
pub fn two_states(w: &Schedule, v: &Schedule, p: State, q: State) -> [Word; 8]
    ensures { result ≡ ended w.now p ++ ended v.now q }
{
    two_last(w, v, two_to_9(w, v, p, q))
}
