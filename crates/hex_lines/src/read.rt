// Reading.
ghost use Rattle.std.specs.Prelude.{◌≡◌, ◌+◌, ◌*◌, ◌/◌, ◌^◌, ◌≤◌, ◌<◌, ◌==◌, length, take, drop, position};
ghost use Rattle.std.proofs.Math.Seq.{paste};
ghost use Rattle.hex_lines.specs.Hex.{is_digit, digit_of, are_digits, number_after, octets_of};
ghost use Rattle.hex_lines.specs.Line.{up_to, decoded_of, written};

use crate::NotDecoded;

pub fn is_digit(c: u8) -> bool
    ensures { result ≡ is_digit c }
{
    matches!(c, b'0'..=b'9' | b'a'..=b'f')
}

// kept: core's char::to_digit takes capitals too, which are no digits of a line.
// The value of a digit; 0 for any other character.
pub fn digit(c: u8) -> u8
    ensures { (result ≡ digit_of c) × (result < 16) }
{
    match c {
        b'0'..=b'9' => c - b'0',
        b'a'..=b'f' => c - b'a' + 10,
        _ => 0,
    }
}

fn are_digits(text: &[u8]) -> bool
    ensures { result ≡ are_digits text.now }
{
    text.iter().all(|&c| is_digit(c))
}

fn first(text: &[u8], stop: u8) -> Option<usize>
    ensures { result ≡ position (λ c. c == stop) text.now }
{
    text.iter().position(|&c| c == stop)
}

// The place of the first octet that is `stop` from a place on, or the text's end.
pub fn find(text: &[u8], from: usize, stop: u8) -> usize
    requires { from ≤ length text.now }
    ensures { (result ≡ from + length (up_to stop (drop from text.now))) × (from ≤ result) × (result ≤ length text.now) }
{
    let rest = &text[from..];
    from + first(rest, stop).unwrap_or(rest.len())
}

// The text from a place on.
pub fn after(text: &[u8], at: usize) -> &[u8]
    ensures { result.now ≡ drop at text.now }
{
    &text[at.min(text.len())..]
}

// At most so many characters from the front.
pub fn front(text: &[u8], n: usize) -> &[u8]
    ensures { (result.now ≡ take n text.now) × (length result.now ≤ length text.now) × (length result.now ≤ n) }
{
    &text[..n.min(text.len())]
}

fn with_digit(n: u64, c: u8) -> u64
    requires { n < 1152921504606846976 }
    ensures { (result ≡ n * 16 + digit_of c) × (result < n * 16 + 16) }
{
    n * 16 + u64::from(digit(c))
}

// The number that a run of at most 16 digits is.
pub fn value(text: &[u8]) -> u64
    requires { length text.now ≤ 16 }
    ensures { (result ≡ number_after 0 text.now) × (result < 16 ^ length text.now) }
{
    let mut n = 0;
    for &c in text {
        n = with_digit(n, c);
    }
    n
}

fn octet(c: u8, d: u8) -> u8
    ensures { result ≡ digit_of c * 16 + digit_of d }
{
    digit(c) * 16 + digit(d)
}

// Not inlined: where text and output are fields of one struct, as in nas_hex and journal_write, only its parameters say that they lie apart, and a loop
// that does not know it takes up to one and a half times as long.
#[inline(never)]
fn spread(text: &[u8], out: &mut [u8])
    requires { length text.now / 2 ≤ length out.old }
    ensures { out.new ≡ paste out.old 0 (octets_of text.now) (length text.now / 2) }
{
    for i in 0..text.len() / 2 {
        out[i] = octet(text[i * 2], text[i * 2 + 1]);
    }
}

// The octets that a run of digits is, at the front of the output, and how many. A run that is none, or has more of them, leaves the output as it was.
pub fn decode(text: &[u8], out: &mut [u8]) -> Result<usize, NotDecoded>
    ensures { (result ≡ decoded_of text.now (length out.old)) × (out.new ≡ written text.now out.old) }
{
    if text.len() % 2 != 0 {
        return Err(NotDecoded::Bad);
    }
    if !are_digits(text) {
        return Err(NotDecoded::Bad);
    }
    if out.len() < text.len() / 2 {
        return Err(NotDecoded::Long);
    }
    spread(text, out);
    Ok(text.len() / 2)
}
