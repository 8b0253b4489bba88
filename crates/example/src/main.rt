// The example of README.md, which quotes `send` and `main` as they stand here: two messages sealed for the air.
#![tactic(auto)]

use nas_5gs::{Connection, Context, Direction};
use nas_core::{Done, Spent};
use refusals::Refusal;

const INTEGRITY_KEY: [u8; 16] = [0, 1, 2, 3, 4, 5, 6, 7, 8, 9, 10, 11, 12, 13, 14, 15];

const CIPHERING_KEY: [u8; 16] = [
    16, 17, 18, 19, 20, 21, 22, 23, 24, 25, 26, 27, 28, 29, 30, 31,
];

// Stands for the radio: prints the octets in hex.
fn transmit(octets: &[u8]) {
    for octet in octets {
        io::print_hex(1, u64::from(*octet), 2);
    }
    io::write_all(1, b"\n");
}

// kept: as in journal_write: neither program stands on the other, and a crate for these lines would be longer than they are.
fn report(refusal: Refusal) {
    io::write_all(1, b"refused: ");
    io::print_decimal(1, u64::from(refusal.number()));
    io::write_all(1, b"\n");
}

fn send(context: Context, inner: &[u8]) -> Context {
    let mut out = [0u8; 64];
    let Done { answer, context } = context.seal(
        2,
        Direction::Downlink,
        Connection::ThreeGpp,
        inner,
        &mut out,
    );
    match answer {
        Ok(Spent { wrote, .. }) => transmit(&out[..wrote]),
        Err(refusal) => report(refusal),
    }
    context
}

fn main() {
    let Done { answer, context } = Context::new(2, 2, INTEGRITY_KEY, CIPHERING_KEY); // 128-NIA2, 128-NEA2
    match answer {
        Err(refusal) => report(refusal),
        Ok(()) => {
            let context = send(context, b"\x7e\x00\x64\x16");
            send(context, b"\x7e\x00\x64\x16");
        }
    }
}
