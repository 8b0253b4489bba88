// Runs document 01's list "Run and compared", the pairing of header types and messages, and messages at the limit, and prints what each call answers: 0 for a success, else the refusal's number.
#![tactic(auto)]

ghost use Rattle.std.specs.Prelude.{◌≤◌, length};

use aes::Input;
use nas_5gs::{Connection, Context, Direction, OpenError, Opened};
use nas_core::{Done, Received, Spent};
use refusals::Refusal;

const KEY: [u8; 16] = [0, 1, 2, 3, 4, 5, 6, 7, 8, 9, 10, 11, 12, 13, 14, 15];

// kept: as in checks_eps: neither program stands on the other, and a crate for these lines would be longer than they are.
fn number<A: Copy>(answer: Result<A, Refusal>) -> u8 {
    match answer {
        Ok(_) => 0,
        Err(refusal) => refusal.number(),
    }
}

fn open_number<A: Copy, M: Copy>(answer: Result<A, OpenError<M>>) -> u8 {
    match answer {
        Ok(_) => 0,
        Err(OpenError::Refused(refusal)) => refusal.number(),
        Err(OpenError::Content(_, _)) => 8,
    }
}

// What refusal 8 of an open carries; 0 for another answer.
fn open_carried<A: Copy, M: Copy>(answer: Result<A, OpenError<M>>) -> u8 {
    match answer {
        Err(OpenError::Content(_, refusal)) => refusal.number(),
        _ => 0,
    }
}

// The COUNT that an open used.
fn open_count(answer: Result<Opened, OpenError<Received>>) -> Option<u32> {
    match answer {
        Ok(opened) => Some(opened.message.count),
        Err(OpenError::Content(message, _)) => Some(message.count),
        Err(OpenError::Refused(_)) => None,
    }
}

fn tell(what: &[u8], n: impl Into<u64>) {
    io::write_all(1, what);
    io::print_decimal(1, n.into());
    io::write_all(1, b"\n");
}

fn fresh() -> Context {
    Context::new(2, 2, KEY, KEY).context
}

// Size 65 is refused, 64 is not.
fn sizes() {
    tell(b"window size 65: ", number(fresh().set_window(65).answer));
    tell(b"window size 64: ", number(fresh().set_window(64).answer));
}

// What an opaque seal makes of no octet or one, given to open.
fn opaque_then_open(inner: &[u8]) -> Result<u8, Refusal>
    requires { length inner.now ≤ 1 }
{
    let mut message = [0; 8];
    fresh()
        .seal_opaque(
            1,
            Direction::Uplink,
            Connection::ThreeGpp,
            inner,
            &mut message,
        )
        .answer?;
    let mut out = [0; 8];
    let mut second = [0; 8];
    let end = 7 + inner.len();
    let opened = fresh().open(
        Direction::Uplink,
        Connection::ThreeGpp,
        &message[..end],
        &mut out,
        &mut second,
    );
    Ok(open_number(opened.answer))
}

// 7 octets against 8: none inside is refusal 1, one that is no message 8.
fn seven_and_eight() {
    tell(b"open of 7 octets: ", opaque_then_open(&[]).unwrap_or(255));
    tell(
        b"open of 8 octets: ",
        opaque_then_open(&[0xaa]).unwrap_or(255),
    );
}

// An EPS message of 6 octets with a right code: 8 carrying 12.
fn eps_of_six() {
    let input = Input {
        count: 0,
        bearer: 1,
        direction: 0,
    };
    let [a, b, c, d] = aes::nia2(aes::Key::of(KEY), input, &[0]);
    let mut out = [0; 8];
    let opened = fresh().open_eps(&[0x17, a, b, c, d, 0], &mut out);
    tell(b"EPS open of 6 octets: ", open_number(opened.answer));
    tell(b"carrying: ", open_carried(opened.answer));
}

// Whether the code for a bearer and a direction is the CMAC behind a head whose fifth octet is the one given.
fn is_fifth(octet: u8, bearer: u8, direction: u8) -> bool {
    let message = [1, 2, 3];
    let input = Input {
        count: 0x0102_0304,
        bearer,
        direction,
    };
    let code = aes::nia2(aes::Key::of(KEY), input, &message);
    let whole = aes::cmac(
        &aes::expand_key(KEY),
        &[1, 2, 3, 4, octet, 0, 0, 0],
        &message,
    );
    code[..] == whole[..4]
}

fn fifth_octets() {
    tell(
        b"fifth octet 0c for bearer 1 downlink: ",
        is_fifth(0x0c, 1, 1),
    );
    tell(
        b"fifth octet 10 for bearer 2 uplink: ",
        is_fifth(0x10, 2, 0),
    );
}

fn restored() -> Context {
    Context::restore(2, 2, KEY, KEY, [16777214; 4]).context
}

// A 5GMM status under header type 2, downlink.
fn send(context: Context, message: &mut [u8; 11]) -> Done<Result<Spent, Refusal>, Context> {
    let inner = [0x7e, 0, 0x64, 0x16];
    context.seal(
        2,
        Direction::Downlink,
        Connection::ThreeGpp,
        &inner,
        message,
    )
}

fn receive(
    context: Context,
    message: [u8; 11],
) -> Done<Result<Opened, OpenError<Received>>, Context> {
    let mut out = [0; 4];
    let mut second = [0; 1];
    context.open(
        Direction::Downlink,
        Connection::ThreeGpp,
        &message,
        &mut out,
        &mut second,
    )
}

fn tell_count(what: &[u8], answer: Result<Opened, OpenError<Received>>) {
    tell(what, open_count(answer).unwrap_or(u32::MAX));
}

// Restored at 16,777,214, size 8, COUNT 16,777,215 used: 16,777,214 still opens late, and a seal gets 6.
fn last_counts() {
    let mut earlier = [0; 11];
    let mut later = [0; 11];
    let first = send(restored(), &mut earlier);
    let second = send(first.context, &mut later);
    tell(b"the last COUNT is sealed: ", number(second.answer));
    let receiver = restored().set_window(8);
    let forward = receive(receiver.context, later);
    tell_count(b"opened forward as ", forward.answer);
    let late = receive(forward.context, earlier);
    tell_count(b"opened late as ", late.answer);
    let sealed = send(late.context, &mut later);
    tell(b"then a seal: ", number(sealed.answer));
}

// A 5GMM message of three octets under a header type: what its seal answers, what an opaque seal of it opens as, and what 8 carries.
fn pairing(header_type: u8, message_type: u8, direction: Direction) {
    let inner = [0x7e, 0, message_type];
    let mut message = [0; 10];
    let looked = fresh().seal(
        header_type,
        direction,
        Connection::ThreeGpp,
        &inner,
        &mut message,
    );
    tell(b"  seal: ", number(looked.answer));
    let sealed = fresh().seal_opaque(
        header_type,
        direction,
        Connection::ThreeGpp,
        &inner,
        &mut message,
    );
    let mut out = [0; 3];
    let mut second = [0; 3];
    let opened = fresh().open(
        direction,
        Connection::ThreeGpp,
        &message,
        &mut out,
        &mut second,
    );
    tell(b"  opaque seal: ", number(sealed.answer));
    tell(b"  open: ", open_number(opened.answer));
    tell(b"  carrying: ", open_carried(opened.answer));
}

// SECURITY MODE COMMAND (5D) and COMPLETE (5E) under a header type in both directions.
fn pairings(header_type: u8) {
    let messages: [(&[u8], u8, Direction); 4] = [
        (b"5D uplink under header type ", 0x5d, Direction::Uplink),
        (b"5D downlink under header type ", 0x5d, Direction::Downlink),
        (b"5E uplink under header type ", 0x5e, Direction::Uplink),
        (b"5E downlink under header type ", 0x5e, Direction::Downlink),
    ];
    for (what, message_type, direction) in messages {
        tell(what, header_type);
        pairing(header_type, message_type, direction);
    }
}

// Messages and container values of 8,192, 8,193, 65,535 and 65,536 octets (refusal 4, document 02 item 5). After each seal the message's code is
// told, after each open whether the output holds what was sealed.

fn tell_code(code: &[u8]) {
    io::write_all(1, b"  code: ");
    for octet in code {
        io::print_hex(1, u64::from(*octet), 2);
    }
    io::write_all(1, b"\n");
}

fn tell_same(plain: &[u8], inner: &[u8]) {
    if plain.starts_with(inner) {
        io::write_all(1, b"  output: what was sealed\n");
    } else {
        io::write_all(1, b"  output: not what was sealed\n");
    }
}

// DL NAS TRANSPORT (68), ciphered, and the same octets without the look.
fn sealed(inner: &[u8], message: &mut [u8; 65543]) {
    let looked = fresh().seal(2, Direction::Downlink, Connection::ThreeGpp, inner, message);
    tell(b"seal: ", number(looked.answer));
    tell_code(&message[2..6]);
    let opaque = fresh().seal_opaque(1, Direction::Downlink, Connection::Non3Gpp, inner, message);
    tell(b"opaque seal: ", number(opaque.answer));
    tell_code(&message[2..6]);
}

fn opened(inner: &[u8], message: &[u8], plain: &mut [u8]) {
    let mut second = [0; 1];
    let done = fresh().open(
        Direction::Downlink,
        Connection::Non3Gpp,
        message,
        plain,
        &mut second,
    );
    tell(b"open: ", open_number(done.answer));
    tell_same(plain, inner);
}

fn eps_opened(inner: &[u8], message: &[u8], plain: &mut [u8]) {
    let done = fresh().open_eps(message, plain);
    tell(b"EPS open: ", open_number(done.answer));
    tell_same(plain, inner);
}

// What the opaque seal made, opened, and with its last octet changed.
fn messages(n: usize)
    requires { n ≤ 65536 }
{
    let mut octets = [0x5a; 65543];
    octets[..3].copy_from_slice(&[0x7e, 0, 0x68]);
    let inner = &octets[..n];
    let mut message = [0; 65543];
    message[..2].copy_from_slice(&[0x7e, 1]);
    sealed(inner, &mut message);
    let mut plain = [0; 65543];
    opened(inner, &message[..n + 7], &mut plain);
    message[n + 6] = 0xa5;
    opened(inner, &message[..n + 7], &mut plain);
}

// TRACKING AREA UPDATE REQUEST (07 48).
fn eps_messages(n: usize)
    requires { n ≤ 65536 }
{
    let mut octets = [0x5a; 65543];
    octets[..2].copy_from_slice(&[0x07, 0x48]);
    let inner = &octets[..n];
    let mut message = [0; 65543];
    message[0] = 0x17;
    let done = fresh().seal_eps(inner, &mut message);
    tell(b"EPS seal: ", number(done.answer));
    tell_code(&message[1..5]);
    let mut plain = [0; 65543];
    eps_opened(inner, &message[..n + 6], &mut plain);
    message[n + 5] = 0xa5;
    eps_opened(inner, &message[..n + 6], &mut plain);
}

fn tell_verified(value: &[u8]) {
    let done = fresh().verify_s1_to_n1_container(value);
    tell(b"verify S1 to N1: ", number(done.answer));
}

// A container value of n octets, its code right, and then its last octet changed.
fn containers(n: usize)
    requires { (9 ≤ n) × (n ≤ 65536) }
{
    let mut value = [0x5a; 65543];
    value[4] = 0x22;
    let input = Input {
        count: 0xffff_ffff,
        bearer: 1,
        direction: 1,
    };
    let code = aes::nia2(aes::Key::of(KEY), input, &value[4..n]);
    nas_core::put_code(code, &mut value);
    tell_verified(&value[..n]);
    value[n - 1] = 0xa5;
    tell_verified(&value[..n]);
}

fn octets(n: usize)
    requires { (9 ≤ n) × (n ≤ 65536) }
{
    tell(b"octets: ", n as u64);
    messages(n);
    eps_messages(n);
    containers(n);
}

fn lengths() {
    octets(8192);
    octets(8193);
    octets(65535);
    octets(65536);
}

fn main() {
    sizes();
    seven_and_eight();
    eps_of_six();
    fifth_octets();
    last_counts();
    for header_type in 1..5 {
        pairings(header_type);
    }
    lengths();
}
