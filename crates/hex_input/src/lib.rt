// A hex line as it is read, piece by piece: the front of its text, far longer than any line without octets, and the octets of the digits that it ends with.
#![tactic(auto)]

ghost use Rattle.std.specs.Prelude.{◌≡◌, ◌≤◌, length, take};
ghost use Rattle.hex_input.specs.Read.{octets_in, ended};
ghost use Rattle.hex_parse.specs.Lines.{line_of};
ghost use Rattle.hex_eps_parse.specs.Lines.{line_of as eps_line_of};

use hex_parse::{Line, Parsed};

// Of the line that is being read: how much of its text is held, and with how many digits it ends.
#[derive(Clone, Copy)]
pub struct Input {
    pub held: usize,
    pub digits: usize,
}

// So many octets of a line are held, and one octet more is counted.
const HOLDS: usize = 65536;

// A line that is longer than the text that is held ends with digits, if it has the form: whether it has it does not depend on two
// digits more or less, so two go, and any other character stays at the end.
fn beyond(text: &mut [u8], c: u8) -> usize
    ensures { result ≤ length text.old }
{
    if text.is_empty() {
        return 0;
    }
    let last = text.len() - 1;
    if !hex_lines::is_digit(text[last]) {
        return text.len();
    }
    if !hex_lines::is_digit(c) {
        text[last] = c;
        return text.len();
    }
    last
}

fn with(text: &mut [u8], n: usize, c: u8) -> usize
    ensures { result ≤ length text.old }
{
    if n < text.len() {
        text[n] = c;
        return n + 1;
    }
    beyond(text, c)
}

// Takes in a piece that has no line end in it, behind the n characters that are held.
// Not inlined, as `decoded`: only the parameters say that piece and text lie apart (hex_lines, `spread`).
#[inline(never)]
fn held(piece: &[u8], text: &mut [u8], n: usize) -> usize
    ensures { n ≤ length text.old → result ≤ length text.old }
{
    let mut count = n;
    for &c in piece {
        count = with(text, count, c);
    }
    count
}

// A digit is half of an octet: two of them push out what stood there.
fn put_digit(octets: &mut [u8], at: usize, c: u8) {
    if let Some(octet) = octets.get_mut(at) {
        *octet = (*octet << 4) | hex_lines::digit(c);
    }
}

// One character more, behind so many digits: any that is none begins a new run of them.
fn with_digit(octets: &mut [u8], digits: usize, c: u8) -> usize
    ensures { digits ≤ 131074 → result ≤ 131074 }
{
    if !hex_lines::is_digit(c) {
        return 0;
    }
    put_digit(octets, digits / 2, c);
    if digits / 2 <= HOLDS {
        return digits + 1;
    }
    digits
}

// Takes in a piece that has no line end in it, behind a line that ends with so many digits, and answers with how many it ends then. Their
// octets come to the front of `octets`, as far as it holds them.
#[inline(never)]
fn decoded(piece: &[u8], octets: &mut [u8], digits: usize) -> usize
    ensures { digits ≤ 131074 → result ≤ 131074 }
{
    let mut count = digits;
    for &c in piece {
        count = with_digit(octets, count, c);
    }
    count
}

// The octets of so many digits; none where they are more than are held.
fn octets_in(digits: usize) -> Option<usize>
    ensures { result ≡ octets_in digits }
{
    let n = digits / 2;
    if n <= HOLDS { Some(n) } else { None }
}

// A parsed line with the octets of the digits that it ends with, for those of the text that is held.
fn with_octets<C: Copy, const N: usize>(mut line: Parsed<C, N>, digits: usize) -> Parsed<C, N>
    ensures { result ≡ ended line digits }
{
    if line.from.is_some() {
        line.octets = octets_in(digits);
    }
    line
}

impl Input {
    pub fn new() -> Input
        ensures { (result.held ≡ 0) × (result.digits ≡ 0) }
    {
        Input { held: 0, digits: 0 }
    }

    // With a piece more that has no line end in it.
    pub fn with(self, piece: &[u8], text: &mut [u8], octets: &mut [u8]) -> Input
        ensures { (self.held ≤ length text.old → result.held ≤ length text.old) × (self.digits ≤ 131074 → result.digits ≤ 131074) }
    {
        Input {
            held: held(piece, text, self.held),
            digits: decoded(piece, octets, self.digits),
        }
    }

    // The line that was read. What is parsed is its text as far as it is held: the octets of that come to `spare`, where nobody reads them, and those of the
    // line stand in `octets`.
    pub fn line(self, text: &[u8], spare: &mut [u8]) -> Line
        ensures { result ≡ ended (line_of (take self.held text.now) (length spare.old)) self.digits }
    {
        let parsed = hex_parse::parse(hex_lines::front(text, self.held), spare);
        with_octets(parsed, self.digits)
    }

    // The EPS line that was read, in the same way.
    pub fn eps_line(self, text: &[u8], spare: &mut [u8]) -> hex_eps_parse::Line
        ensures { result ≡ ended (eps_line_of (take self.held text.now) (length spare.old)) self.digits }
    {
        let parsed = hex_eps_parse::parse(hex_lines::front(text, self.held), spare);
        with_octets(parsed, self.digits)
    }
}
