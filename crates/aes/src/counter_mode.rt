// SP 800-38A 6.5: counter mode, two blocks at a time.
ghost use Rattle.std.specs.Prelude.{◌≡◌, ℕ, ◌+◌, ◌-◌, ◌*◌, ◌%◌, ◌<◌, ◌≤◌, List, [], ◌++◌, length, take, drop, slice_index, slice_index_or, slice_range};
ghost use Rattle.aes.specs.Octets.{four, xor, octets};
ghost use Rattle.aes.specs.Cipher.{from_state, cipher};
ghost use Rattle.aes_block.specs.Mix.{Shared};
ghost use Rattle.aes.specs.Counter.{counter, ctr_of};

use aes_block::{Schedule, State, Word, from_state, left, right, second_state, shared, two_states};

// The last 8 octets of a block as a number.
fn numbered(t: [u8; 16], n: u64) -> [u8; 16]
    ensures { result ≡ take 8 t ++ octets 8 n }
{
    let mut b = t;
    b[8..].copy_from_slice(&n.to_be_bytes());
    b
}

pub fn counter_block(t: [u8; 16], n: usize) -> [u8; 16]
    ensures { result ≡ counter t n }
{
    let base = u64::from_be_bytes([t[8], t[9], t[10], t[11], t[12], t[13], t[14], t[15]]);
    numbered(t, base.wrapping_add(n as u64))
}

fn xor_four(m: &mut [u8], i: usize, k: Word)
    requires { i + 3 < length m.old }
    ensures { m.new ≡ take i m.old ++ xor (take 4 (drop i m.old)) (four (λ j. slice_index k j)) ++ drop (i + 4) m.old }
{
    let a = m[i] ^ k[0];
    let b = m[i + 1] ^ k[1];
    let c = m[i + 2] ^ k[2];
    let d = m[i + 3] ^ k[3];
    m[i] = a;
    m[i + 1] = b;
    m[i + 2] = c;
    m[i + 3] = d;
}

pub fn xor_state(m: &mut [u8], i: usize, s: State)
    requires { i + 15 < length m.old }
    ensures { m.new ≡ take i m.old ++ xor (take 16 (drop i m.old)) (from_state s) ++ drop (i + 16) m.old }
{
    let a = s[0];
    let b = s[1];
    let c = s[2];
    let d = s[3];
    xor_four(m, i, a);
    xor_four(m, i + 4, b);
    xor_four(m, i + 8, c);
    xor_four(m, i + 12, d);
}

// Octets i to end of a message, at most 16, under as many of an output block.
fn xor_part(m: &mut [u8], i: usize, end: usize, k: [u8; 16])
    requires { (i ≤ end) × (end ≤ length m.old) × (end - i ≤ 16) }
    ensures { m.new ≡ take i m.old ++ xor (slice_range m.old i end) k ++ drop end m.old }
{
    for q in 0..end - i {
        m[i + q] ^= k[q];
    }
}

// The same under two output blocks: at most 32 octets.
fn xor_rest(m: &mut [u8], i: usize, end: usize, s: [Word; 8])
    requires { (i ≤ end) × (end ≤ length m.old) × (end - i ≤ 32) }
    ensures { m.new ≡ take i m.old ++ xor (slice_range m.old i end) (from_state (four (λ c. slice_index_or s c [])) ++ from_state (four (λ c. slice_index_or s (c + 4) []))) ++ drop end m.old }
{
    let middle = if end - i < 16 { end } else { i + 16 };
    xor_part(m, i, middle, from_state(left(s)));
    xor_part(m, middle, end, from_state(right(s)));
}

// Blocks n and on, to octet end of a message: they share g, and what lies before is under the key stream already.
fn ctr_run(w: &Schedule, t: [u8; 16], g: [Word; 5], m: &mut [u8], n: usize, end: usize)
    requires { Shared w.now (counter t n) g × (n * 16 ≤ end) × (end ≤ length m.old) × (end + slice_index (counter t n) 15 * 16 ≤ n * 16 + 4096) }
    ensures { (l : List ℕ) → m.old ≡ ctr_of (cipher w.now) t (take (n * 16) l) ++ drop (n * 16) l → m.new ≡ ctr_of (cipher w.now) t (take end l) ++ drop end l }
{
    let b = counter_block(t, n);
    let mut o = b[15];
    let mut i = n * 16;
    // kept: the counter octet goes on beside the place, and the last turn takes what is left: a step of 32 would say the turns and leave both to more tests.
    while i < end {
        let p = second_state(w, g, o);
        let q = second_state(w, g, o.wrapping_add(1));
        let s = two_states(w, w, p, q);
        if 32 <= end - i {
            xor_state(m, i, left(s));
            xor_state(m, i + 16, right(s));
            i += 32;
        } else {
            xor_rest(m, i, end, s);
            i = end;
        }
        o = o.wrapping_add(2);
    }
}

// Where the blocks from octet i on end that differ in the last octet alone, or `end` if that comes before: o is the first one's.
pub fn run_end(o: u8, i: usize, end: usize) -> usize
    requires { i ≤ end }
    ensures { (result ≤ end) × (result + o * 16 ≤ i + 4096) × (i < end → i < result) × (i % 16 ≡ 0 → end % 16 ≡ 0 → result % 16 ≡ 0) × (i % 16 ≡ 0 → result < end → result % 16 ≡ 0) }
{
    let run = (256 - o as usize) * 16;
    if end - i < run { end } else { i + run }
}

// Blocks n and on, to octet end of a message, where what lies before is under the key stream already.
pub fn ctr_to(w: &Schedule, t: [u8; 16], m: &mut [u8], n: usize, end: usize)
    requires { (n * 16 ≤ end) × (end ≤ length m.old) }
    ensures { (l : List ℕ) → m.old ≡ ctr_of (cipher w.now) t (take (n * 16) l) ++ drop (n * 16) l → m.new ≡ ctr_of (cipher w.now) t (take end l) ++ drop end l }
{
    let mut i = n * 16;
    // kept: a turn goes to the end of its run, so no range and no step gives the turns.
    while i < end {
        let b = counter_block(t, i / 16);
        let g = shared(w, b);
        let next = run_end(b[15], i, end);
        ctr_run(w, t, g, m, i / 16, next);
        i = next;
    }
}

// Counter mode in place, under an expanded key and from the first counter block t.
pub fn ctr(w: &Schedule, t: [u8; 16], m: &mut [u8])
    ensures { m.new ≡ ctr_of (cipher w.now) t m.old }
{
    ctr_to(w, t, m, 0, m.len());
}
