// Gives the algorithms something to do, for a clock outside. Reads a letter, an algorithm and a decimal number of rounds, as `e2 1000`:
//   e1 e2 e3  cipher 8,192 octets in place by 128-NEA1, 128-NEA2 or 128-NEA3, the round's number as COUNT, and print the first four octets
//             at the end
//   i1 i2 i3  make their code by 128-NIA1, 128-NIA2 or 128-NIA3 and write its first octet over their first one
#![tactic(auto)]

ghost use Rattle.std.specs.Prelude.{◌≤◌};

use aes::{Input, Key};

const KEY: [u8; 16] = [0, 1, 2, 3, 4, 5, 6, 7, 8, 9, 10, 11, 12, 13, 14, 15];

// The decimal number at a text's front, read no further once it has six digits.
fn rounds(text: &[u8]) -> u32
    ensures { result ≤ 1000000 }
{
    let mut n = 0;
    for &c in text {
        if !c.is_ascii_digit() || 100000 <= n {
            break;
        }
        n = n * 10 + u32::from(c - b'0');
    }
    n
}

// kept: as in vectors: neither program stands on the other, and a crate for these lines would be longer than they are.
// An algorithm's code by its letter; any other letter is AES.
fn algorithm(letter: u8) -> u8 {
    match letter {
        b'1' => 1,
        b'3' => 3,
        _ => 2,
    }
}

fn run(text: &[u8], m: &mut [u8; 8192]) {
    let [step, letter, _, digits @ ..] = text else {
        return;
    };
    let key = Key::of(KEY);
    let algorithm = algorithm(*letter);
    for count in 0..rounds(digits) {
        let input = Input {
            count,
            bearer: 1,
            direction: 0,
        };
        if *step == b'e' {
            algorithms::cipher(algorithm, key, input, m);
        } else {
            m[0] = algorithms::code(algorithm, key, input, m)[0];
        }
    }
}

fn show(octets: &[u8]) {
    for &octet in octets {
        io::print_hex(1, u64::from(octet), 2);
    }
    io::write_all(1, b"\n");
}

fn main() {
    let mut text = [0u8; 16];
    let got = io::read_full(0, &mut text);
    let mut m = [0u8; 8192];
    run(&text[..got], &mut m);
    show(&m[..4]);
}
