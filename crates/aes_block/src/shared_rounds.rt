// What blocks that differ in the last octet alone share of the first two rounds: round 1 changes one column by it, and round 2
// takes one octet of that column into each.
ghost use Rattle.std.specs.Prelude.{◌≡◌, get_or};
ghost use Rattle.std.specs.Int.Bits.{bit_xor};
ghost use Rattle.aes_block.specs.Cipher.{add_round_key, rounds};
ghost use Rattle.aes_block.specs.Mix.{two_rounds, Shared};

use crate::cipher::{add_round_key, middle_round, to_state};
use crate::columns::from_row;
use crate::words::{Schedule, State, Word, xor_word};

// The columns of both rounds with what the last octet gave to them taken out again.
pub fn shared(w: &Schedule, b: [u8; 16]) -> [Word; 5]
    ensures { Shared w.now b result }
{
    let s = add_round_key(w, 0, to_state(b));
    let a = middle_round(w, 1, s);
    let c = middle_round(w, 2, a);
    let d = s[3];
    let e = a[0];
    [
        xor_word(e, from_row::<3>(d[3])),
        xor_word(c[0], from_row::<0>(e[0])),
        xor_word(c[1], from_row::<3>(e[3])),
        xor_word(c[2], from_row::<2>(e[2])),
        xor_word(c[3], from_row::<1>(e[1])),
    ]
}

// The state after two rounds of a block whose last octet is o.
pub fn second_state(w: &Schedule, g: [Word; 5], o: u8) -> State
    ensures { result ≡ two_rounds g (bit_xor o (get_or w.now 15 0)) }
{
    let x = xor_word(g[0], from_row::<3>(o ^ w[15]));
    [
        xor_word(g[1], from_row::<0>(x[0])),
        xor_word(g[2], from_row::<3>(x[3])),
        xor_word(g[3], from_row::<2>(x[2])),
        xor_word(g[4], from_row::<1>(x[1])),
    ]
}

// The first two rounds of a block that shares them with none.
pub fn two_rounds(w: &Schedule, s: State) -> State
    ensures { result ≡ rounds w.now 2 (add_round_key w.now 0 s) }
{
    let a = middle_round(w, 1, add_round_key(w, 0, s));
    middle_round(w, 2, a)
}
