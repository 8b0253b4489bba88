// Printing: each function puts its text at a place of the output and answers the place after it.
ghost use Rattle.std.specs.Prelude.{◌≡◌, ◌+◌, ◌-◌, ◌*◌, ◌≤◌, ◌<◌, length, drop};
ghost use Rattle.std.proofs.Math.Seq.{paste};
ghost use Rattle.hex_lines.specs.Hex.{char_of, text_of, decimal_of, big_endian};

// kept: core's char::from_digit makes a char, which would be made an octet again.
fn char_of(n: u8) -> u8
    requires { n < 16 }
    ensures { result ≡ char_of n }
{
    if n < 10 { b'0' + n } else { b'a' + n - 10 }
}

pub fn put_text(text: &[u8], out: &mut [u8], at: usize) -> usize
    requires { at + length text.now ≤ length out.old }
    ensures { (result ≡ at + length text.now) × (out.new ≡ paste out.old at text.now (length text.now)) }
{
    let end = at + text.len();
    out[at..end].copy_from_slice(text);
    end
}

pub fn put_octets(octets: &[u8], out: &mut [u8], at: usize) -> usize
    requires { at + length octets.now * 2 ≤ length out.old }
    ensures { (result ≡ at + length octets.now * 2) × (out.new ≡ paste out.old at (text_of octets.now) (length octets.now * 2)) }
{
    for i in 0..octets.len() {
        let j = at + i * 2;
        out[j] = char_of(octets[i] / 16);
        out[j + 1] = char_of(octets[i] % 16);
    }
    at + octets.len() * 2
}

// The last octets of a number, two digits each.
pub fn put_number(n: u64, octets: usize, out: &mut [u8], at: usize) -> usize
    requires { (octets ≤ 8) × (at + octets * 2 ≤ length out.old) }
    ensures { (result ≡ at + octets * 2) × (out.new ≡ paste out.old at (text_of (drop (8 - octets) (big_endian n))) (octets * 2)) }
{
    put_octets(&n.to_be_bytes()[8 - octets..], out, at)
}

pub fn put_decimal(n: u8, out: &mut [u8], at: usize) -> usize
    requires { at + 3 ≤ length out.old }
    ensures { (result ≡ at + length (decimal_of n)) × (out.new ≡ paste out.old at (decimal_of n) (length (decimal_of n))) }
{
    if n < 10 {
        return put_text(&[n + 48], out, at);
    }
    if n < 100 {
        return put_text(&[n / 10 + 48, n % 10 + 48], out, at);
    }
    put_text(&[n / 100 + 48, n / 10 % 10 + 48, n % 10 + 48], out, at)
}
