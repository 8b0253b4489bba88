// Initial messages that go out (document 02, item 9).
ghost use Rattle.std.specs.Prelude.{◌≡◌, ◌+◌, ◌≤◌, length};
ghost use Rattle.initial.specs.Messages.{mandatory_length};
ghost use Rattle.initial.specs.Outer.{outer_length};
ghost use Rattle.nas_core.specs.Leaves.{over};
ghost use Rattle.envelope.specs.Initial.{outgoing, initial_envelope};

use aes::Input;
use nas_core::Core;

// An initial message is sent uplink, under header type 1.
const UPLINK: u8 = 0;

const INTEGRITY: u8 = 1;

// The mandatory part and the container with the whole message ciphered, or the message itself where it hides nothing.
fn put_outgoing(core: Core, count: u32, bearer: u8, whole: &[u8], out: &mut [u8])
    requires { (mandatory_length whole.now ≤ length whole.now) × (length whole.now ≤ 65535) × (length out.old ≡ outer_length whole.now) }
    ensures { out.new ≡ outgoing core count bearer whole.now }
{
    if initial::hides(whole) {
        let start = initial::mandatory_length(whole) + 3;
        let input = Input {
            count,
            bearer,
            direction: UPLINK,
        };
        core.fill(true, input, whole, &mut out[start..]);
        initial::put_front(whole, &mut out[..start]);
        return;
    }
    out.copy_from_slice(whole);
}

// An initial message to the front of the output.
pub fn put_initial(core: Core, count: u32, bearer: u8, whole: &[u8], out: &mut [u8])
    requires { (mandatory_length whole.now ≤ length whole.now) × (length whole.now ≤ 65535) × (7 + outer_length whole.now ≤ length out.old) }
    ensures { out.new ≡ over (initial_envelope core count bearer whole.now) out.old }
{
    let end = crate::HEADER + initial::outer_length(whole);
    put_outgoing(core, count, bearer, whole, &mut out[crate::HEADER..end]);
    let input = Input {
        count,
        bearer,
        direction: UPLINK,
    };
    crate::wrap(core, INTEGRITY, input, &mut out[..end]);
}
