// 5GS and EPS messages, initial messages with their container, and the S1-to-N1 container as octets, made and read with a context's keys.
#![tactic(auto)]

ghost use Rattle.std.specs.Prelude.{◌≡◌, ◌+◌, ◌-◌, ◌≤◌, length, drop};
ghost use Rattle.nas_core.specs.Keyed.{payload};
ghost use Rattle.nas_core.specs.Leaves.{read_as};
ghost use Rattle.nas_core.specs.Verify.{fits, verify_of};
ghost use Rattle.envelope.specs.Envelope.{ciphers, envelope, over};
ghost use Rattle.envelope.specs.Eps.{eps_bearer, eps_direction, not_eps, eps_message};
ghost use Rattle.envelope.specs.Containers.{s1_to_n1, s1_count, container_bearer, container_direction, other_algorithms};

mod hidden;
mod outgoing;

use aes::Input;
use count::{Missed, Record, Taken};
pub use hidden::read_beside;
use nas_core::Core;
pub use outgoing::put_initial;

// In front of the payload: 7E, header type, code and last octet of COUNT (5GS), or 17, code and last octet (EPS).
pub const HEADER: usize = 7;

pub const EPS_HEADER: usize = 6;

// Where the code begins.
pub const CODE: usize = 2;

pub const EPS_CODE: usize = 1;

// The EPS message: 3GPP access, uplink.
pub const EPS_BEARER: u8 = 1;

pub const EPS_DIRECTION: u8 = 0;

// The containers: 3GPP access, downlink.
const CONTAINER_BEARER: u8 = 1;

const CONTAINER_DIRECTION: u8 = 1;

// The COUNT of the S1-to-N1 container's code (TS 33.501 6.9.2.3.3).
const S1_COUNT: u32 = 4294967295;

const S1_INPUT: Input = Input {
    count: S1_COUNT,
    bearer: CONTAINER_BEARER,
    direction: CONTAINER_DIRECTION,
};

// kept: a direction is the algorithms' number here: what is made and read is defined for each number.
// The inner message stands behind seven octets: it is ciphered as the header type says, and the header is written there.
fn wrap(core: Core, header_type: u8, input: Input, message: &mut [u8])
    requires { 7 ≤ length message.old }
    ensures { message.new ≡ envelope core header_type input.count input.bearer input.direction (drop 7 message.old) }
{
    let ciphered = nas_core::is_ciphering(header_type);
    core.seal(ciphered, input, &mut message[CODE..]);
    message[0] = 0x7e;
    message[1] = header_type;
}

// A 5GS message to the front of the output.
pub fn put(core: Core, header_type: u8, input: Input, inner: &[u8], out: &mut [u8])
    requires { 7 + length inner.now ≤ length out.old }
    ensures { out.new ≡ over (envelope core header_type input.count input.bearer input.direction inner.now) out.old }
{
    let end = HEADER + inner.len();
    out[HEADER..end].copy_from_slice(inner);
    wrap(core, header_type, input, &mut out[..end]);
}

// The COUNT that the code of a 5GS message fits; its plaintext goes to the front of the output then.
pub fn read(
    core: Core,
    rec: Record,
    header_type: u8,
    bearer: u8,
    direction: u8,
    message: &[u8],
    out: &mut [u8],
) -> Result<Taken, Missed>
    requires { (7 ≤ length message.now) × (length message.now - 7 ≤ length out.old) }
    ensures opening { result ≡ verify_of core rec bearer direction 2 message.now }
    ensures plain { out.new ≡ read_as (λ c. over (payload core (ciphers header_type) c bearer direction (drop 7 message.now)) out.old) out.old result }
{
    let wrote = message.len() - HEADER;
    let ciphered = nas_core::is_ciphering(header_type);
    core.verify(
        rec,
        ciphered,
        bearer,
        direction,
        CODE,
        message,
        &mut out[..wrote],
    )
}

// Refusal 12: neither ATTACH REQUEST nor TRACKING AREA UPDATE REQUEST.
#[tactic(auto, unfolding(crate::specs::Eps::not_eps))]
pub fn not_eps(octets: &[u8]) -> bool
    ensures { result ≡ not_eps octets.now }
{
    octets.len() < 2 || octets[0] != 0x07 || octets[1] != 0x41 && octets[1] != 0x48
}

// An EPS message to the front of the output.
pub fn put_eps(core: Core, count: u32, inner: &[u8], out: &mut [u8])
    requires { 6 + length inner.now ≤ length out.old }
    ensures { out.new ≡ over (eps_message core count inner.now) out.old }
{
    let end = EPS_HEADER + inner.len();
    out[EPS_HEADER..end].copy_from_slice(inner);
    let input = Input {
        count,
        bearer: EPS_BEARER,
        direction: EPS_DIRECTION,
    };
    core.protect(input, &mut out[EPS_CODE..end]);
    out[0] = 0x17;
}

// The COUNT that the code of an EPS message fits; what follows the header goes to the front of the output then.
pub fn read_eps(core: Core, rec: Record, message: &[u8], out: &mut [u8]) -> Result<Taken, Missed>
    requires { (6 ≤ length message.now) × (length message.now - 6 ≤ length out.old) }
    ensures opening { result ≡ verify_of core rec eps_bearer eps_direction 1 message.now }
    ensures plain { out.new ≡ read_as (λ c. over (drop 6 message.now) out.old) out.old result }
{
    let wrote = message.len() - EPS_HEADER;
    core.verify(
        rec,
        false,
        EPS_BEARER,
        EPS_DIRECTION,
        EPS_CODE,
        message,
        &mut out[..wrote],
    )
}

// Refusal 15.
#[tactic(auto, unfolding(crate::specs::Containers::other_algorithms))]
pub fn other_algorithms(core: Core, value: &[u8]) -> bool
    requires { 8 ≤ length value.now }
    ensures { result ≡ other_algorithms core value.now }
{
    value[4] / 16 != core.ciphering || value[4] % 16 != core.integrity
}

// The S1-to-N1 container to the front of the output.
pub fn put_s1_to_n1(core: Core, ncc: u8, ngksi: u8, out: &mut [u8])
    requires { (ncc ≤ 7) × (ngksi ≤ 15) × (core.integrity ≤ 15) × (core.ciphering ≤ 15) × (8 ≤ length out.old) }
    ensures { out.new ≡ over (s1_to_n1 core ncc ngksi) out.old }
{
    out[4] = core.ciphering * 16 + core.integrity;
    out[5] = ncc * 16 + ngksi;
    out[6] = 0;
    out[7] = 0;
    let code = core.code(S1_INPUT, &out[4..8]);
    nas_core::put_code(code, out);
}

// Whether the code of an S1-to-N1 container fits.
pub fn fits_s1_to_n1(core: Core, value: &[u8]) -> bool
    requires { 8 ≤ length value.now }
    ensures { result ≡ fits core s1_count container_bearer container_direction 0 value.now }
{
    core.fits(S1_INPUT, 0, value)
}
