// SP 800-38B: CMAC.
ghost use Rattle.std.specs.Prelude.{◌≡◌, ◌+◌, ◌-◌, ◌*◌, ◌/◌, ◌%◌, ◌^◌, ◌<◌, ◌≤◌, [], ◌∷◌, ◌++◌, length, if◌then◌else◌, slice_index};
ghost use Rattle.aes.specs.Octets.{sixteen, xor};
ghost use Rattle.aes.specs.Cipher.{to_state, from_state, cipher};
ghost use Rattle.aes.specs.Cmac.{shift_left, double as double_of, subkey1, chain, cmac_by, cmac_of};
ghost use Rattle.aes.specs.Parts.{chain_block, of_halves};

use aes_block::{Schedule, State, encrypt_state, to_state, xor_states};

const R128: [u8; 16] = [0, 0, 0, 0, 0, 0, 0, 0, 0, 0, 0, 0, 0, 0, 0, 135];

fn xor_block(a: [u8; 16], b: [u8; 16]) -> [u8; 16]
    ensures { result ≡ xor a b }
{
    [
        a[0] ^ b[0],
        a[1] ^ b[1],
        a[2] ^ b[2],
        a[3] ^ b[3],
        a[4] ^ b[4],
        a[5] ^ b[5],
        a[6] ^ b[6],
        a[7] ^ b[7],
        a[8] ^ b[8],
        a[9] ^ b[9],
        a[10] ^ b[10],
        a[11] ^ b[11],
        a[12] ^ b[12],
        a[13] ^ b[13],
        a[14] ^ b[14],
        a[15] ^ b[15],
    ]
}

fn shifted(a: u8, b: u8) -> u8
    ensures { result ≡ a % 128 * 2 + b / 128 }
{
    a % 128 * 2 + b / 128
}

fn shift_left(x: [u8; 16]) -> [u8; 16]
    ensures { result ≡ shift_left x }
{
    [
        shifted(x[0], x[1]),
        shifted(x[1], x[2]),
        shifted(x[2], x[3]),
        shifted(x[3], x[4]),
        shifted(x[4], x[5]),
        shifted(x[5], x[6]),
        shifted(x[6], x[7]),
        shifted(x[7], x[8]),
        shifted(x[8], x[9]),
        shifted(x[9], x[10]),
        shifted(x[10], x[11]),
        shifted(x[11], x[12]),
        shifted(x[12], x[13]),
        shifted(x[13], x[14]),
        shifted(x[14], x[15]),
        shifted(x[15], 0),
    ]
}

pub fn double(x: [u8; 16]) -> [u8; 16]
    ensures { result ≡ double_of x }
{
    if x[0] < 128 {
        shift_left(x)
    } else {
        xor_block(shift_left(x), R128)
    }
}

// Octet i of the head and the message with the padding's bit 1 behind them, and zeros from there on.
fn octet_at(head: &[u8], message: &[u8], i: usize) -> u8
    ensures { result ≡ slice_index (head.now ++ message.now ++ (128 ∷ [])) i }
{
    if i < head.len() {
        head[i]
    } else {
        let k = i - head.len();
        if k < message.len() {
            message[k]
        } else {
            if k == message.len() { 128 } else { 0 }
        }
    }
}

fn gathered_block(head: &[u8], message: &[u8], k: usize) -> [u8; 16]
    requires { k + 15 < 2 ^ 64 }
    ensures { result ≡ sixteen (λ j. slice_index (head.now ++ message.now ++ (128 ∷ [])) (k + j)) }
{
    [
        octet_at(head, message, k),
        octet_at(head, message, k + 1),
        octet_at(head, message, k + 2),
        octet_at(head, message, k + 3),
        octet_at(head, message, k + 4),
        octet_at(head, message, k + 5),
        octet_at(head, message, k + 6),
        octet_at(head, message, k + 7),
        octet_at(head, message, k + 8),
        octet_at(head, message, k + 9),
        octet_at(head, message, k + 10),
        octet_at(head, message, k + 11),
        octet_at(head, message, k + 12),
        octet_at(head, message, k + 13),
        octet_at(head, message, k + 14),
        octet_at(head, message, k + 15),
    ]
}

// 16 octets of a message from i on.
pub fn state_at(m: &[u8], i: usize) -> State
    requires { i + 15 < length m.now }
    ensures { result ≡ to_state (sixteen (λ j. slice_index m.now (i + j))) }
{
    [
        [m[i], m[i + 1], m[i + 2], m[i + 3]],
        [m[i + 4], m[i + 5], m[i + 6], m[i + 7]],
        [m[i + 8], m[i + 9], m[i + 10], m[i + 11]],
        [m[i + 12], m[i + 13], m[i + 14], m[i + 15]],
    ]
}

// A block that the head is in: at once where 8 octets of it are the head and 8 the message's, as in 128-NIA2.
fn early_state(head: &[u8], message: &[u8], k: usize) -> State
    requires { k < length head.now }
    ensures { result ≡ to_state (sixteen (λ j. slice_index (head.now ++ message.now ++ (128 ∷ [])) (k + j))) }
{
    if head.len() != 8 {
        return to_state(gathered_block(head, message, k));
    }
    if message.len() < 8 {
        return to_state(gathered_block(head, message, k));
    }
    if k != 0 {
        return to_state(gathered_block(head, message, k));
    }
    [
        [head[0], head[1], head[2], head[3]],
        [head[4], head[5], head[6], head[7]],
        [message[0], message[1], message[2], message[3]],
        [message[4], message[5], message[6], message[7]],
    ]
}

// The octets of a message from i on, at most 16, and the padding's bit 1 and zeros behind them.
fn padded_block(message: &[u8], i: usize) -> [u8; 16]
    requires { (i ≤ length message.now) × (length message.now ≤ i + 16) }
    ensures { result ≡ sixteen (λ j. slice_index (message.now ++ (128 ∷ [])) (i + j)) }
{
    let rest = message.len() - i;
    let mut b = [0u8; 16];
    b[..rest].copy_from_slice(&message[i..]);
    if rest < 16 {
        b[rest] = 128;
    }
    b
}

// The last block, which begins at k, with the padding.
fn last_block(head: &[u8], message: &[u8], k: usize) -> [u8; 16]
    requires { (k ≤ length head.now + length message.now) × (length head.now + length message.now ≤ k + 16) }
    ensures { result ≡ sixteen (λ j. slice_index (head.now ++ message.now ++ (128 ∷ [])) (k + j)) }
{
    if k < head.len() {
        gathered_block(head, message, k)
    } else {
        padded_block(message, k - head.len())
    }
}

// The last block with the subkey for a whole one, or for one that was padded.
fn keyed_state(k1: [u8; 16], k2: [u8; 16], b: [u8; 16], whole: bool) -> State
    ensures { result ≡ to_state (if whole then xor k1 b else xor k2 b) }
{
    if whole {
        xor_states(to_state(k1), to_state(b))
    } else {
        xor_states(to_state(k2), to_state(b))
    }
}

// Block i of the chain, of which n come before the last.
fn chain_state(k1: [u8; 16], k2: [u8; 16], head: &[u8], message: &[u8], n: usize, i: usize) -> State
    requires { (i ≤ n) × (n ≡ (length head.now + length message.now - 1) / 16) }
    ensures { result ≡ to_state (chain_block k1 k2 (head.now ++ message.now) i) }
{
    if i == n {
        let whole = head.len() + message.len() - n * 16 == 16;
        return keyed_state(k1, k2, last_block(head, message, n * 16), whole);
    }
    if i * 16 < head.len() {
        return early_state(head, message, i * 16);
    }
    state_at(message, i * 16 - head.len())
}

// How many blocks come before the last one.
fn blocks_before_last(octets: usize) -> usize
    ensures { result ≡ (octets - 1) / 16 }
{
    if octets == 0 { 0 } else { (octets - 1) / 16 }
}

// The CMAC from block `from` on, where x is what the blocks before have made, as two numbers: octets would be taken for a vector, and
// the chain with them.
pub fn cmac_from(
    w: &Schedule,
    k1: [u8; 16],
    k2: [u8; 16],
    head: &[u8],
    message: &[u8],
    x: State,
    from: usize,
) -> [u64; 2]
    requires { (from ≤ (length head.now + length message.now - 1) / 16) × (from_state x ≡ chain (cipher w.now) (head.now ++ message.now) from) }
    ensures { of_halves result ≡ cmac_by (cipher w.now) k1 k2 (head.now ++ message.now) }
{
    let n = blocks_before_last(head.len() + message.len());
    let mut x = x;
    for i in from..n + 1 {
        let b = chain_state(k1, k2, head, message, n, i);
        let next = encrypt_state(w, xor_states(x, b));
        x = next;
    }
    let [a, b, c, d] = x;
    [
        u64::from_be_bytes([a[0], a[1], a[2], a[3], b[0], b[1], b[2], b[3]]),
        u64::from_be_bytes([c[0], c[1], c[2], c[3], d[0], d[1], d[2], d[3]]),
    ]
}

pub fn cmac_with(w: &Schedule, k1: [u8; 16], k2: [u8; 16], head: &[u8], message: &[u8]) -> [u64; 2]
    ensures { of_halves result ≡ cmac_by (cipher w.now) k1 k2 (head.now ++ message.now) }
{
    cmac_from(w, k1, k2, head, message, [[0u8; 4]; 4], 0)
}

// The block of two numbers.
fn block_of(h: [u64; 2]) -> [u8; 16]
    ensures { result ≡ of_halves h }
{
    let mut b = [0u8; 16];
    b[..8].copy_from_slice(&h[0].to_be_bytes());
    b[8..].copy_from_slice(&h[1].to_be_bytes());
    b
}

// 6.1: the cipher of a block of zeros, doubled. That cipher is the CMAC of the block where both subkeys are zeros: so a block is ciphered
// at one place, and inlined there.
pub fn subkey(w: &Schedule) -> [u8; 16]
    ensures { result ≡ subkey1 (cipher w.now) }
{
    let z = [0u8; 8];
    double(block_of(cmac_with(w, [0u8; 16], [0u8; 16], &z, &z)))
}

// The CMAC of a head and a message behind it, under an expanded key.
pub fn cmac(w: &Schedule, head: &[u8], message: &[u8]) -> [u8; 16]
    ensures { result ≡ cmac_of (cipher w.now) (head.now ++ message.now) }
{
    let k1 = subkey(w);
    let k2 = double(k1);
    block_of(cmac_with(w, k1, k2, head, message))
}
