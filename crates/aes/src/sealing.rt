// A long message ciphered and its code made side by side: block j of the payload beside block j - 2 of the chain, whose octets were
// ciphered two blocks before and lie in the message by then.
ghost use Rattle.std.specs.Prelude.{◌≡◌, ℕ, ◌+◌, ◌-◌, ◌*◌, ◌/◌, ◌%◌, ◌≤◌, List, ◌∷◌, ◌++◌, length, take, drop, slice_index};
ghost use Rattle.aes.specs.Octets.{xor};
ghost use Rattle.aes.specs.Cipher.{from_state, cipher};
ghost use Rattle.aes_block.specs.Mix.{Shared};
ghost use Rattle.aes.specs.Counter.{counter, ctr_of};
ghost use Rattle.aes.specs.Cmac.{block, chain};

use crate::cmac_mode::state_at;
use crate::counter_mode::{counter_block, ctr_to, run_end, xor_state};
use aes_block::{
    Schedule, State, Word, left, right, second_state, shared, two_rounds, two_states, xor_states,
};

// Octets i to end of a payload p, whose blocks share g, and the chain over nine octets h and p: x is the chain before block i / 16 - 2
// with that block in it.
fn run_both(
    w: &Schedule,
    v: &Schedule,
    t: [u8; 16],
    g: [Word; 5],
    p: &mut [u8],
    x: State,
    i: usize,
    end: usize,
) -> State
    requires { Shared w.now (counter t (i / 16)) g × (32 ≤ i) × (i ≤ end) × (end ≤ length p.old) × (i % 16 ≡ 0) × (end % 16 ≡ 0) × (end + slice_index (counter t (i / 16)) 15 * 16 ≤ i + 4096) }
    ensures ciphered { (l : List ℕ) → p.old ≡ ctr_of (cipher w.now) t (take i l) ++ drop i l → p.new ≡ ctr_of (cipher w.now) t (take end l) ++ drop end l }
    ensures chained { (h : List ℕ) → length h ≡ 9 → from_state x ≡ xor (chain (cipher v.now) (h ++ p.old) (i / 16 - 2)) (block (h ++ p.old) (i / 16 - 2)) → from_state result ≡ xor (chain (cipher v.now) (h ++ p.new) (end / 16 - 2)) (block (h ++ p.new) (end / 16 - 2)) }
{
    let b = counter_block(t, i / 16);
    let mut o = b[15];
    let mut x = x;
    let mut i = i;
    // kept: the chain and the counter octet go on beside the place, and the block of the turn before is read back from it.
    while i < end {
        let q = two_rounds(v, x);
        let s = two_states(w, v, second_state(w, g, o), q);
        xor_state(p, i, left(s));
        let next = xor_states(right(s), state_at(p, i - 25));
        x = next;
        o = o.wrapping_add(1);
        i += 16;
    }
    x
}

// A payload p under counter mode from block t on, and the chain over the first 8 octets of t, an octet f and p ciphered, before the last
// block but one that lies in p whole.
pub fn cipher_and_chain(w: &Schedule, v: &Schedule, t: [u8; 16], f: u8, p: &mut [u8]) -> State
    requires { 48 ≤ length p.old }
    ensures ciphered { p.new ≡ ctr_of (cipher w.now) t p.old }
    ensures chained { from_state result ≡ chain (cipher v.now) (take 8 t ++ f ∷ p.new) (length p.old / 16 - 2) }
{
    let end = p.len() / 16 * 16;
    ctr_to(w, t, p, 0, 32);
    let mut x = [
        [t[0], t[1], t[2], t[3]],
        [t[4], t[5], t[6], t[7]],
        [f, p[0], p[1], p[2]],
        [p[3], p[4], p[5], p[6]],
    ];
    let mut i = 32;
    // kept: a turn goes to the end of its run, as in `ctr_to`.
    while i < end {
        let b = counter_block(t, i / 16);
        let g = shared(w, b);
        let next = run_end(b[15], i, end);
        let y = run_both(w, v, t, g, p, x, i, next);
        x = y;
        i = next;
    }
    ctr_to(w, t, p, end / 16, p.len());
    xor_states(x, state_at(p, end - 41))
}
