// Runs request 6's session over the calls of the EPS context, and messages at the limit, and prints each answer as the request's hex lines do.
#![tactic(auto)]

ghost use Rattle.std.specs.Prelude.{◌≤◌};

use nas_core::{Done, Received, Spent};
use nas_eps::{Context, Direction, Opened};
use refusals::Refusal;

const INTEGRITY_KEY: [u8; 16] = [0, 1, 2, 3, 4, 5, 6, 7, 8, 9, 10, 11, 12, 13, 14, 15];

const CIPHERING_KEY: [u8; 16] = [
    16, 17, 18, 19, 20, 21, 22, 23, 24, 25, 26, 27, 28, 29, 30, 31,
];

fn refused(refusal: Refusal) {
    tell(b"no ", refusal.number());
}

fn word(n: impl Into<u64>, digits: usize) {
    io::write_all(1, b" ");
    io::print_hex(1, n.into(), digits);
}

// Octets after a space, `-` for none, and the end of the line.
fn octets(written: &[u8]) {
    if written.is_empty() {
        io::write_all(1, b" -\n");
        return;
    }
    if 64 < written.len() {
        return;
    }
    let mut text = [0; 128];
    let n = hex_lines::put_octets(written, &mut text, 0);
    io::write_all(1, b" ");
    io::write_all(1, hex_lines::front(&text, n));
    io::write_all(1, b"\n");
}

fn changed(done: Done<Result<(), Refusal>, Context>) -> Context {
    match done.answer {
        Err(refusal) => refused(refusal),
        Ok(()) => {
            io::write_all(1, b"ok\n");
        }
    }
    done.context
}

fn used(done: Done<Result<Spent, Refusal>, Context>, out: &[u8]) -> Context {
    match done.answer {
        Err(refusal) => refused(refusal),
        Ok(Spent { count, wrote }) => {
            io::write_all(1, b"ok");
            word(count, 8);
            word(wrote as u64, 4);
            octets(hex_lines::front(out, wrote));
        }
    }
    done.context
}

fn opened(done: Done<Result<Opened, Refusal>, Context>, out: &[u8]) -> Context {
    match done.answer {
        Err(refusal) => refused(refusal),
        Ok(
            Opened::Message(
                Received {
                    count,
                    distance,
                    wrote,
                    header_type,
                },
            ),
        ) => {
            io::write_all(1, b"ok");
            word(count, 8);
            word(distance, 8);
            word(wrote as u64, 4);
            word(header_type, 2);
            octets(hex_lines::front(out, wrote));
        }
        Ok(
            Opened::ServiceRequest {
                count,
                distance,
                identifier,
            },
        ) => {
            io::write_all(1, b"ok");
            word(count, 8);
            word(distance, 8);
            io::write_all(1, b" 0000 0c");
            word(identifier, 2);
            octets(&[]);
        }
    }
    done.context
}

fn fresh() -> Context {
    changed(Context::new(2, 2, INTEGRITY_KEY, CIPHERING_KEY))
}

// What one end seals.
fn sealed(context: Context) {
    let mut out = [0; 16];
    let first = used(
        context.seal(2, Direction::Uplink, b"\x07\x48\xaa", &mut out),
        &out,
    );
    let second = used(first.service_request(5, &mut out), &out);
    let third = used(second.service_request(5, &mut out), &out);
    let fourth = used(third.seal(1, Direction::Downlink, b"", &mut out), &out);
    used(fourth.service_request(8, &mut out), &out);
}

// What the other opens: SERVICE REQUEST 2, the message late, SERVICE REQUEST 1 too late, downlink, and short; a message of nothing.
fn received(mut context: Context) {
    let messages: [(Direction, &[u8]); 6] = [
        (Direction::Uplink, b"\xc7\xa2\xb2\xd0"),
        (Direction::Uplink, b"\x27\x15\x41\x53\xa7\x00\xea\xeb\x9a"),
        (Direction::Uplink, b"\xc7\xa1\x4b\x16"),
        (Direction::Downlink, b"\xc7\xa1\x4b\x16"),
        (Direction::Downlink, b"\xc7\xa1\x4b"),
        (Direction::Downlink, b"\x17\x52\xca\x1c\x90\x00"),
    ];
    let mut out = [0; 16];
    for (direction, message) in messages {
        context = opened(context.open(direction, message, &mut out), &out);
    }
}

// kept: as in checks: neither program stands on the other, and a crate for these lines would be longer than they are.
fn number<A: Copy>(answer: Result<A, Refusal>) -> u8 {
    match answer {
        Ok(_) => 0,
        Err(refusal) => refusal.number(),
    }
}

fn tell(what: &[u8], number: u8) {
    io::write_all(1, what);
    io::print_decimal(1, u64::from(number));
    io::write_all(1, b"\n");
}

fn long_opened(context: Context, message: &[u8], plain: &mut [u8]) {
    let done = context.open(Direction::Downlink, message, plain);
    tell(b"open: ", number(done.answer));
    octets(hex_lines::front(plain, 4));
}

// A ciphered message of n octets sealed, opened, and opened with room for 65,534.
fn at_limit(context: Context, n: usize)
    requires { n ≤ 65536 }
{
    let inner = [0x5a; 65543];
    let mut message = [0; 65543];
    message[0] = 0x27;
    let done = context.seal(2, Direction::Downlink, &inner[..n], &mut message);
    tell(b"seal: ", number(done.answer));
    octets(&message[..10]);
    let mut plain = [0; 65543];
    let mut short = [0; 65534];
    long_opened(context, &message[..n + 6], &mut plain);
    long_opened(context, &message[..n + 6], &mut short);
}

fn main() {
    let one = fresh();
    let other = changed(fresh().set_window(8));
    sealed(one);
    received(other);
    at_limit(one, 65535);
    at_limit(one, 65536);
}
