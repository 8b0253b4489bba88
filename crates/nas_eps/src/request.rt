// SERVICE REQUEST as octets, made and verified with a context's keys: C7, identifier and five bits of the COUNT, two octets of the code.
ghost use Rattle.std.specs.Prelude.{◌≡◌, ◌+◌, ◌*◌, ◌≤◌, length, drop};
ghost use Rattle.nas_core.specs.Verify.{same};
ghost use Rattle.nas_eps.specs.Leaves.{over};
ghost use Rattle.nas_eps.specs.Octets.{service_request, short_fits};

use crate::octets;
use aes::Input;
use nas_core::Core;

const DIRECTION: u8 = 0;

fn input(count: u32) -> Input
    ensures { result ≡ record { count = count; bearer = 0; direction = 0 } }
{
    Input {
        count,
        bearer: octets::BEARER,
        direction: DIRECTION,
    }
}

pub const LENGTH: usize = 4;

pub fn put(core: Core, identifier: u8, count: u32, out: &mut [u8])
    requires { (identifier ≤ 7) × (4 ≤ length out.old) }
    ensures { out.new ≡ over (service_request core identifier count) out.old }
{
    out[0] = 0xc7;
    out[1] = identifier * 32 + (count % 32) as u8;
    let code = core.code(input(count), &out[..2]);
    out[2] = code[2];
    out[3] = code[3];
}

// The two octets are compared as one number, at once.
fn is_short_code(code: [u8; 4], received: &[u8]) -> bool
    requires { length received.now ≡ 2 }
    ensures { result ≡ same received.now (drop 2 code) }
{
    let stands = u16::from_be_bytes([received[0], received[1]]);
    stands == u16::from_be_bytes([code[2], code[3]])
}

// Whether the code of a SERVICE REQUEST fits the COUNT.
pub fn fits(core: Core, count: u32, message: &[u8]) -> bool
    requires { length message.now ≡ 4 }
    ensures { result ≡ short_fits core count message.now }
{
    if core.wraps() {
        return true;
    }
    let code = core.code(input(count), &message[..2]);
    is_short_code(code, &message[2..])
}
