// The calls, each by the function of nas_5gs that it is.
ghost use Rattle.std.specs.Prelude.{◌≡◌, []};
ghost use Rattle.nas_5gs.specs.Leaves.{leaves, leaves_two};
ghost use Rattle.nas_5gs.specs.Changes.{new_of, restore_of, reselect_of, window_of};
ghost use Rattle.nas_5gs.specs.Seal.{seal_of, seal_opaque_of};
ghost use Rattle.nas_5gs.specs.Initial.{initial_of};
ghost use Rattle.nas_5gs.specs.Open.{open_of};
ghost use Rattle.nas_5gs.specs.Eps.{seal_eps_of, open_eps_of};
ghost use Rattle.nas_5gs.specs.Containers.{n1_to_s1_of, verify_n1_to_s1_of, s1_to_n1_of, verify_s1_to_n1_of};
ghost use Rattle.nas_5gs.specs.Places.{bearer_no};
ghost use Rattle.handover.specs.Across.{across_of};
ghost use Rattle.hex_perform.specs.Answers.{change_answer, use_answer, octet_answer, open_answer, eps_answer, verify_answer, writing, writing_two, writing_across};
ghost use Rattle.hex_perform.specs.Perform.{direction_of, connection_of, raw_context, call_of};

use crate::{Answer, direction_of};
use aes::Key;
use count::Record;
use hex_parse::{Call, Line};
use nas_5gs::{Connection, Context};
use nas_core::{Core, Done};

#[tactic(auto, unfolding(crate::specs::Perform::connection_of))]
fn connection_of(number: u8) -> Connection
    ensures { result ≡ connection_of number }
{
    match number {
        1 => Connection::ThreeGpp,
        _ => Connection::Non3Gpp,
    }
}

// What a call hands back, its answer as that value.
fn told<A: Into<Answer>>(done: Done<A, Context>) -> Done<Answer, Context>
    ensures { (A.converts done.answer result.answer) × (result.context ≡ done.context) }
{
    Done {
        answer: done.answer.into(),
        context: done.context,
    }
}

fn create(integrity: u8, ciphering: u8, ik: [u8; 16], ck: [u8; 16]) -> Done<Answer, Context>
    ensures { leaves result.answer result.context [] ≡ writing change_answer (new_of integrity ciphering ik ck) }
{
    told(Context::new(integrity, ciphering, ik, ck))
}

fn restore(
    integrity: u8,
    ciphering: u8,
    ik: [u8; 16],
    ck: [u8; 16],
    next: [u32; 4],
) -> Done<Answer, Context>
    ensures { leaves result.answer result.context [] ≡ writing change_answer (restore_of integrity ciphering ik ck next) }
{
    told(Context::restore(integrity, ciphering, ik, ck, next))
}

fn reselect(
    context: Context,
    integrity: u8,
    ciphering: u8,
    ik: [u8; 16],
    ck: [u8; 16],
) -> Done<Answer, Context>
    ensures { leaves result.answer result.context [] ≡ writing change_answer (reselect_of context integrity ciphering ik ck) }
{
    told(context.reselect(integrity, ciphering, ik, ck))
}

fn window(context: Context, size: u8) -> Done<Answer, Context>
    ensures { leaves result.answer result.context [] ≡ writing change_answer (window_of context size) }
{
    told(context.set_window(size))
}

fn seal(
    context: Context,
    header: u8,
    direction: u8,
    connection: u8,
    inner: &[u8],
    out: &mut [u8],
) -> Done<Answer, Context>
    ensures { leaves result.answer result.context out.new ≡ writing use_answer (seal_of context header (direction_of direction) (connection_of connection) inner.now out.old) }
{
    let d = direction_of(direction);
    let k = connection_of(connection);
    told(context.seal(header, d, k, inner, out))
}

fn opaque(
    context: Context,
    header: u8,
    direction: u8,
    connection: u8,
    inner: &[u8],
    out: &mut [u8],
) -> Done<Answer, Context>
    ensures { leaves result.answer result.context out.new ≡ writing use_answer (seal_opaque_of context header (direction_of direction) (connection_of connection) inner.now out.old) }
{
    let d = direction_of(direction);
    let k = connection_of(connection);
    told(context.seal_opaque(header, d, k, inner, out))
}

fn initial(context: Context, connection: u8, whole: &[u8], out: &mut [u8]) -> Done<Answer, Context>
    ensures { leaves result.answer result.context out.new ≡ writing use_answer (initial_of context (connection_of connection) whole.now out.old) }
{
    let k = connection_of(connection);
    told(context.initial(k, whole, out))
}

fn open(
    context: Context,
    direction: u8,
    connection: u8,
    message: &[u8],
    out: &mut [u8],
    second: &mut [u8],
) -> Done<Answer, Context>
    ensures { leaves_two result.answer result.context out.new second.new ≡ writing_two open_answer (open_of context (direction_of direction) (connection_of connection) message.now out.old second.old) }
{
    let d = direction_of(direction);
    let k = connection_of(connection);
    told(context.open(d, k, message, out, second))
}

fn across(
    context: Context,
    direction: u8,
    connection: u8,
    message: &[u8],
    out: &mut [u8],
    second: &mut [u8],
) -> Done<Answer, Context>
    ensures { leaves_two result.answer result.context out.new second.new ≡ writing_across (across_of context (direction_of direction) (connection_of connection) message.now out.old second.old) }
{
    let d = direction_of(direction);
    let k = connection_of(connection);
    told(handover::open_across(context, d, k, message, out, second))
}

// The same calls on a context where it lies.
fn window_in(context: Context, size: u8) -> Done<Answer, Context>
    ensures { leaves result.answer result.context [] ≡ writing change_answer (window_of context size) }
{
    told(nas_lent::set_window(context, size))
}

fn seal_in(
    context: Context,
    header: u8,
    direction: u8,
    connection: u8,
    inner: &[u8],
    out: &mut [u8],
) -> Done<Answer, Context>
    ensures { leaves result.answer result.context out.new ≡ writing use_answer (seal_of context header (direction_of direction) (connection_of connection) inner.now out.old) }
{
    let d = direction_of(direction);
    let k = connection_of(connection);
    told(nas_lent::seal(context, header, d, k, inner, out))
}

fn open_in(
    context: Context,
    direction: u8,
    connection: u8,
    message: &[u8],
    out: &mut [u8],
    second: &mut [u8],
) -> Done<Answer, Context>
    ensures { leaves_two result.answer result.context out.new second.new ≡ writing_two open_answer (open_of context (direction_of direction) (connection_of connection) message.now out.old second.old) }
{
    let d = direction_of(direction);
    let k = connection_of(connection);
    told(nas_lent::open(context, d, k, message, out, second))
}

fn eps_seal(context: Context, inner: &[u8], out: &mut [u8]) -> Done<Answer, Context>
    ensures { leaves result.answer result.context out.new ≡ writing use_answer (seal_eps_of context inner.now out.old) }
{
    told(context.seal_eps(inner, out))
}

fn eps_open(context: Context, message: &[u8], out: &mut [u8]) -> Done<Answer, Context>
    ensures { leaves result.answer result.context out.new ≡ writing eps_answer (open_eps_of context message.now out.old) }
{
    told(context.open_eps(message, out))
}

fn n1_to_s1(context: Context) -> Done<Answer, Context>
    ensures { leaves result.answer result.context [] ≡ writing octet_answer (n1_to_s1_of context) }
{
    told(context.n1_to_s1_container())
}

fn verify_n1_to_s1(context: Context, octet: u8) -> Done<Answer, Context>
    ensures { leaves result.answer result.context [] ≡ writing verify_answer (verify_n1_to_s1_of context octet) }
{
    told(context.verify_n1_to_s1_container(octet))
}

fn s1_to_n1(context: Context, ncc: u8, ngksi: u8, out: &mut [u8]) -> Done<Answer, Context>
    ensures { leaves result.answer result.context out.new ≡ writing use_answer (s1_to_n1_of context ncc ngksi out.old) }
{
    told(context.s1_to_n1_container(ncc, ngksi, out))
}

fn verify_s1_to_n1(context: Context, value: &[u8]) -> Done<Answer, Context>
    ensures { leaves result.answer result.context [] ≡ writing use_answer (verify_s1_to_n1_of context value.now) }
{
    told(context.verify_s1_to_n1_container(value))
}

// A context put together by hand, with any numbers.
fn raw(
    integrity: u8,
    ciphering: u8,
    size: u8,
    integrity_key: [u8; 16],
    ciphering_key: [u8; 16],
    next: [u32; 4],
    bits: [u64; 4],
) -> Context
    ensures { result ≡ raw_context integrity ciphering size integrity_key ciphering_key next bits }
{
    let core = Core {
        integrity,
        ciphering,
        integrity_key: Key::of(integrity_key),
        ciphering_key: Key::of(ciphering_key),
        size,
    };
    Context {
        core,
        records: [
            Record {
                next: next[0],
                bits: bits[0],
            },
            Record {
                next: next[1],
                bits: bits[1],
            },
            Record {
                next: next[2],
                bits: bits[2],
            },
            Record {
                next: next[3],
                bits: bits[3],
            },
        ],
    }
}

pub fn call(
    line: Line,
    context: Context,
    octets: &[u8],
    out: &mut [u8],
    second: &mut [u8],
) -> Done<Answer, Context>
    ensures { leaves_two result.answer result.context out.new second.new ≡ call_of line.call line context octets.now out.old second.old }
{
    let call = line.call;
    let ik = line.integrity_key;
    let ck = line.ciphering_key;
    let next = line.next;
    let bits = line.bits;
    match call {
        Call::Bad => Done {
            answer: Answer::Bad,
            context,
        },
        Call::New {
            integrity,
            ciphering,
        } => create(integrity, ciphering, ik, ck),
        Call::Restore {
            integrity,
            ciphering,
        } => restore(integrity, ciphering, ik, ck, next),
        Call::Reselect {
            integrity,
            ciphering,
        } => reselect(context, integrity, ciphering, ik, ck),
        Call::Window(size) => window(context, size),
        Call::Seal {
            header,
            direction,
            connection,
        } => seal(context, header, direction, connection, octets, out),
        Call::Opaque {
            header,
            direction,
            connection,
        } => opaque(context, header, direction, connection, octets, out),
        Call::Initial(connection) => initial(context, connection, octets, out),
        Call::Open {
            direction,
            connection,
        } => open(context, direction, connection, octets, out, second),
        Call::EpsSeal => eps_seal(context, octets, out),
        Call::EpsOpen => eps_open(context, octets, out),
        Call::N1ToS1 => n1_to_s1(context),
        Call::VerifyN1ToS1(octet) => verify_n1_to_s1(context, octet),
        Call::S1ToN1 { ncc, ngksi } => s1_to_n1(context, ncc, ngksi, out),
        Call::VerifyS1ToN1 => verify_s1_to_n1(context, octets),
        Call::Raw {
            integrity,
            ciphering,
            size,
        } => Done {
            answer: Answer::Done,
            context: raw(integrity, ciphering, size, ik, ck, next, bits),
        },
        Call::Show => Done {
            answer: Answer::Shown,
            context,
        },
        Call::Across {
            direction,
            connection,
        } => across(context, direction, connection, octets, out, second),
        Call::WindowIn(size) => window_in(context, size),
        Call::SealIn {
            header,
            direction,
            connection,
        } => seal_in(context, header, direction, connection, octets, out),
        Call::OpenIn {
            direction,
            connection,
        } => open_in(context, direction, connection, octets, out, second),
    }
}
