// Runs the published test sets: reads lines of a kind, a name and values in hex, and prints each name with the result.
//   aes  NAME key block                          ctr  NAME key first-counter-block octets
//   cmac NAME key message                        uia2 NAME key count fresh direction message
//   neaA NAME key count bearer direction octets  niaA NAME key count bearer direction message; A is 1, 2 or 3
//   snow3gat NAME key iv n, zucat NAME key iv n: word n of the key stream, counted from 1
#![tactic(auto)]

mod line;

use crate::line::{Kind, Line};
use aes::{Input, Key};

// So many octets of a result are written at once: the most that one has.
const PIECE: usize = 0x1_0000;

fn show(name: &[u8], octets: &[u8]) {
    io::write_all(1, name);
    io::write_all(1, b" ");
    let mut text = [0; 2 * PIECE];
    for piece in octets.chunks(PIECE) {
        let n = hex_lines::put_octets(piece, &mut text, 0);
        io::write_all(1, hex_lines::front(&text, n));
    }
    io::write_all(1, b"\n");
}

// The CMAC of a message that is given in two parts, cut in its middle.
fn cmac_of_halves(w: &[u8; 176], m: &[u8]) -> [u8; 16] {
    let (head, rest) = m.split_at(m.len() / 2);
    aes::cmac(w, head, rest)
}

fn run_line(line: Line<'_>) {
    let mut room = [0; 0x1_0000];
    let name = line.word(1);
    let key = line.octets(2);
    let w = aes::expand_key(key);
    match line.kind() {
        Kind::Block => show(name, &aes::encrypt_block(&w, line.octets(3))),
        Kind::Ctr => {
            let m = line.message(4, &mut room);
            aes::ctr(&w, line.octets(3), m);
            show(name, m);
        }
        Kind::Cmac => show(name, &cmac_of_halves(&w, line.message(3, &mut room))),
        Kind::Nea(algorithm) => {
            let m = line.message(6, &mut room);
            algorithms::cipher(algorithm, Key::of(key), line.input(), m);
            show(name, m);
        }
        Kind::Nia(algorithm) => {
            let m = line.message(6, &mut room);
            show(
                name,
                &algorithms::code(algorithm, Key::of(key), line.input(), m),
            );
        }
        Kind::Uia2 => {
            let Input {
                count,
                direction,
                ..
            } = line.input();
            let m = line.message(6, &mut room);
            show(
                name,
                &snow3g::uia2(key, count, line.number(4), direction, m),
            );
        }
        Kind::Snow3g => {
            let word = snow3g::keystream_word(
                line::words(key),
                line::words(line.octets(3)),
                line.place(),
            );
            show(name, &word.to_be_bytes());
        }
        Kind::Zuc => show(
            name,
            &zuc::stream_word(key, line.octets(3), line.place()).to_be_bytes(),
        ),
    }
}

fn main() {
    let mut space = [0u8; 0x4_0000];
    let n = io::read_full(0, &mut space);
    for line in space[..n].split_inclusive(|&c| c == b'\n') {
        run_line(Line::of(line.strip_suffix(b"\n").unwrap_or(line)));
    }
}
