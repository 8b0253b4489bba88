// EPS messages of types 1 to 4 as octets, made and read with a context's keys, and what may be refused of received octets before any key is used.
ghost use Rattle.std.specs.Prelude.{◌≡◌, cond, not, ◌&&◌, ◌+◌, ◌-◌, ◌/◌, ◌≤◌, ◌<◌, eqb, ltb, length, drop};
ghost use Rattle.refusals.specs.Numbers.{refused};
ghost use Rattle.nas_core.specs.Types.{wrong_type, ciphers};
ghost use Rattle.nas_core.specs.Keyed.{payload};
ghost use Rattle.nas_core.specs.Leaves.{read_as};
ghost use Rattle.nas_core.specs.Verify.{verify_of};
ghost use Rattle.nas_eps.specs.Leaves.{over};
ghost use Rattle.nas_eps.specs.Octets.{bearer, type_of, message};
ghost use Rattle.nas_eps.specs.Open.{form_refusal};

use aes::Input;
use count::{Missed, Record, Taken};
use nas_core::Core;
use refusals::Refusal;

// In front of the payload: header type, code and last octet of COUNT.
pub const HEADER: usize = 6;

// Where the code begins.
pub const CODE: usize = 1;

pub const BEARER: u8 = 0;

// Whether a first octet is that of a SERVICE REQUEST.
pub fn is_request(first: u8) -> bool
    ensures { result ≡ eqb (first / 16) 12 }
{
    first / 16 == 12
}

fn is_other_type(first: u8) -> bool
    ensures { result ≡ wrong_type (first / 16) && not (eqb (first / 16) 12) }
{
    nas_core::is_wrong_type(first / 16) && !is_request(first)
}

fn is_wrong_length(first: u8, n: usize) -> bool
    ensures { result ≡ cond (eqb (first / 16) 12) (not (eqb n 4)) (ltb n 7) }
{
    if is_request(first) {
        return n != 4;
    }
    n < 7
}

// Refusals 1, 2 and 3 of a message's first octet and length.
#[tactic(auto, unfolding(crate::specs::Open::form_refusal))]
pub fn check_form(message: &[u8]) -> Result<(), Refusal>
    ensures { refused result ≡ form_refusal message.now }
{
    if message.len() == 0 {
        return Err(Refusal::WrongLength);
    }
    let first = message[0];
    if first % 16 != 7 {
        return Err(Refusal::WrongFirstOctet);
    }
    if is_other_type(first) {
        return Err(Refusal::WrongHeaderType);
    }
    if is_wrong_length(first, message.len()) {
        return Err(Refusal::WrongLength);
    }
    Ok(())
}

// A message to the front of the output: the inner octets behind its six header octets, then these are written and the inner octets ciphered as the header type says.
pub fn put(core: Core, header_type: u8, count: u32, direction: u8, inner: &[u8], out: &mut [u8])
    requires { (header_type ≤ 4) × (6 + length inner.now ≤ length out.old) }
    ensures { out.new ≡ over (message core header_type count direction inner.now) out.old }
{
    let end = HEADER + inner.len();
    out[HEADER..end].copy_from_slice(inner);
    let ciphered = nas_core::is_ciphering(header_type);
    let input = Input {
        count,
        bearer: BEARER,
        direction,
    };
    core.seal(ciphered, input, &mut out[CODE..end]);
    out[0] = header_type * 16 + 7;
}

// The COUNT that a message's code fits; its plaintext goes to the front of the output then.
pub fn verify(
    core: Core,
    rec: Record,
    direction: u8,
    message: &[u8],
    out: &mut [u8],
) -> Result<Taken, Missed>
    requires { (6 ≤ length message.now) × (length message.now - 6 ≤ length out.old) }
    ensures opening { result ≡ verify_of core rec bearer direction 1 message.now }
    ensures read { out.new ≡ read_as (λ n. over (payload core (ciphers (type_of message.now)) n bearer direction (drop 6 message.now)) out.old) out.old result }
{
    let wrote = message.len() - HEADER;
    let ciphered = nas_core::is_ciphering(message[0] / 16);
    core.verify(
        rec,
        ciphered,
        BEARER,
        direction,
        CODE,
        message,
        &mut out[..wrote],
    )
}
