// The words of a line.
ghost use Rattle.std.specs.Prelude.{◌≡◌, ◌++◌, ◌+◌, ◌*◌, ◌≤◌, length, take};
ghost use Rattle.hex_print.specs.Words.{Puts, word, decimal_word, octets_word};

pub fn text(text: &[u8], out: &mut [u8], at: usize) -> usize
    requires { at + length text.now ≤ length out.old }
    ensures { Puts out.old at text.now out.new result × (result ≡ at + length text.now) }
{
    hex_lines::put_text(text, out, at)
}

// A number of so many octets, two digits each, after a space.
pub fn word(n: u64, octets: usize, out: &mut [u8], at: usize) -> usize
    requires { (octets ≤ 8) × (at + 17 ≤ length out.old) }
    ensures { Puts out.old at (word octets n) out.new result × (result ≤ at + 17) }
{
    let next = text(b" ", out, at);
    hex_lines::put_number(n, octets, out, next)
}

pub fn decimal(n: u8, out: &mut [u8], at: usize) -> usize
    requires { at + 4 ≤ length out.old }
    ensures { Puts out.old at (decimal_word n) out.new result × (result ≤ at + 4) }
{
    let next = text(b" ", out, at);
    hex_lines::put_decimal(n, out, next)
}

// Octets after a space, `-` for none.
pub fn octets(octets: &[u8], out: &mut [u8], at: usize) -> usize
    requires { at + 2 + length octets.now * 2 ≤ length out.old }
    ensures { Puts out.old at (octets_word octets.now) out.new result × (result ≤ at + 2 + length octets.now * 2) }
{
    if octets.len() == 0 {
        return text(b" -", out, at);
    }
    let next = text(b" ", out, at);
    hex_lines::put_octets(octets, out, next)
}
