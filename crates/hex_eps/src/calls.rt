// The calls, each by the function of nas_eps that it is.
ghost use Rattle.std.specs.Prelude.{◌≡◌, [], get_or};
ghost use Rattle.nas_eps.specs.Leaves.{leaves};
ghost use Rattle.nas_eps.specs.Changes.{new_of, restore_of, reselect_of, window_of};
ghost use Rattle.nas_eps.specs.Seal.{seal_of, service_request_of};
ghost use Rattle.nas_eps.specs.Open.{open_of};
ghost use Rattle.hex_perform.specs.Perform.{direction_of};
ghost use Rattle.hex_eps.specs.Answers.{change_answer, use_answer, open_answer, writing};
ghost use Rattle.hex_eps.specs.Perform.{raw_context, call_of};

use crate::Answer;
use aes::Key;
use count::Record;
use hex_eps_parse::{Call, Line};
use hex_perform::direction_of;
use nas_core::{Core, Done};
use nas_eps::Context;

// kept: `told`, `create`, `reselect` and the From impls as in hex_perform, over a context and an Answer that are other types with other definitions.
// What a call hands back, its answer as that value.
fn told<A: Into<Answer>>(done: Done<A, Context>) -> Done<Answer, Context>
    ensures { (A.converts done.answer result.answer) × (result.context ≡ done.context) }
{
    Done {
        answer: done.answer.into(),
        context: done.context,
    }
}

fn create(integrity: u8, ciphering: u8, ik: [u8; 16], ck: [u8; 16]) -> Done<Answer, Context>
    ensures { leaves result.answer result.context [] ≡ writing change_answer (new_of integrity ciphering ik ck) }
{
    told(Context::new(integrity, ciphering, ik, ck))
}

fn restore(
    integrity: u8,
    ciphering: u8,
    ik: [u8; 16],
    ck: [u8; 16],
    next: [u32; 2],
) -> Done<Answer, Context>
    ensures { leaves result.answer result.context [] ≡ writing change_answer (restore_of integrity ciphering ik ck (get_or next 0 0) (get_or next 1 0)) }
{
    let [up, down] = next;
    told(Context::restore(integrity, ciphering, ik, ck, up, down))
}

fn reselect(
    context: Context,
    integrity: u8,
    ciphering: u8,
    ik: [u8; 16],
    ck: [u8; 16],
) -> Done<Answer, Context>
    ensures { leaves result.answer result.context [] ≡ writing change_answer (reselect_of context integrity ciphering ik ck) }
{
    told(context.reselect(integrity, ciphering, ik, ck))
}

fn window(context: Context, size: u8) -> Done<Answer, Context>
    ensures { leaves result.answer result.context [] ≡ writing change_answer (window_of context size) }
{
    told(context.set_window(size))
}

fn seal(
    context: Context,
    header: u8,
    direction: u8,
    inner: &[u8],
    out: &mut [u8],
) -> Done<Answer, Context>
    ensures { leaves result.answer result.context out.new ≡ writing use_answer (seal_of context header (direction_of direction) inner.now out.old) }
{
    let d = direction_of(direction);
    told(context.seal(header, d, inner, out))
}

fn request(context: Context, identifier: u8, out: &mut [u8]) -> Done<Answer, Context>
    ensures { leaves result.answer result.context out.new ≡ writing use_answer (service_request_of context identifier out.old) }
{
    told(context.service_request(identifier, out))
}

fn open(context: Context, direction: u8, message: &[u8], out: &mut [u8]) -> Done<Answer, Context>
    ensures { leaves result.answer result.context out.new ≡ writing open_answer (open_of context (direction_of direction) message.now out.old) }
{
    let d = direction_of(direction);
    told(context.open(d, message, out))
}

// A context put together by hand, with any numbers.
fn raw(
    integrity: u8,
    ciphering: u8,
    size: u8,
    integrity_key: [u8; 16],
    ciphering_key: [u8; 16],
    next: [u32; 2],
    bits: [u64; 2],
) -> Context
    ensures { result ≡ raw_context integrity ciphering size integrity_key ciphering_key next bits }
{
    let core = Core {
        integrity,
        ciphering,
        integrity_key: Key::of(integrity_key),
        ciphering_key: Key::of(ciphering_key),
        size,
    };
    Context {
        core,
        records: [
            Record {
                next: next[0],
                bits: bits[0],
            },
            Record {
                next: next[1],
                bits: bits[1],
            },
        ],
    }
}

pub fn call(line: Line, context: Context, octets: &[u8], out: &mut [u8]) -> Done<Answer, Context>
    ensures { leaves result.answer result.context out.new ≡ call_of line.call line context octets.now out.old }
{
    let call = line.call;
    let ik = line.integrity_key;
    let ck = line.ciphering_key;
    let next = line.next;
    let bits = line.bits;
    match call {
        Call::Bad => Done {
            answer: Answer::Bad,
            context,
        },
        Call::New {
            integrity,
            ciphering,
        } => create(integrity, ciphering, ik, ck),
        Call::Restore {
            integrity,
            ciphering,
        } => restore(integrity, ciphering, ik, ck, next),
        Call::Reselect {
            integrity,
            ciphering,
        } => reselect(context, integrity, ciphering, ik, ck),
        Call::Window(size) => window(context, size),
        Call::Seal { header, direction } => seal(context, header, direction, octets, out),
        Call::Request(identifier) => request(context, identifier, out),
        Call::Open(direction) => open(context, direction, octets, out),
        Call::Raw {
            integrity,
            ciphering,
            size,
        } => Done {
            answer: Answer::Done,
            context: raw(integrity, ciphering, size, ik, ck, next, bits),
        },
        Call::Show => Done {
            answer: Answer::Shown,
            context,
        },
    }
}
