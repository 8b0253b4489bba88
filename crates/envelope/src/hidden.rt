// The container's message of an initial message that came in (document 02, item 9).
ghost use Rattle.std.specs.Prelude.{◌≡◌, true, ◌≤◌, length};
ghost use Rattle.initial.specs.Messages.{is_initial};
ghost use Rattle.initial.specs.Walk.{container_of};
ghost use Rattle.initial.specs.Inside.{is_inside, of_type, hidden_in};
ghost use Rattle.nas_core.specs.Keyed.{payload};
ghost use Rattle.nas_core.specs.Leaves.{over};
ghost use Rattle.envelope.specs.Initial.{beside_of, beside, told};

use aes::Input;
use nas_core::Core;
use refusals::Refusal;

const UPLINK: u8 = 0;

// Whether a container's value deciphers to a message of the outer type. Three octets decide, so that nothing is written before it is known.
fn has_type(core: Core, count: u32, bearer: u8, outer: &[u8], value: &[u8]) -> bool
    requires { (is_initial outer.now ≡ true) × (3 ≤ length value.now) }
    ensures { result ≡ is_inside outer.now (payload core true count bearer 0 value.now) }
{
    let mut front = [0; 3];
    let input = Input {
        count,
        bearer,
        direction: UPLINK,
    };
    core.fill(true, input, &value[..3], &mut front);
    initial::is_inside(outer, &front)
}

// 18, or how many octets the container's message has.
fn take_inside(
    core: Core,
    count: u32,
    bearer: u8,
    outer: &[u8],
    value: &[u8],
    second: &mut [u8],
) -> Result<usize, Refusal>
    requires { (is_initial outer.now ≡ true) × (length value.now ≤ length second.old) }
    ensures answer { result ≡ told (of_type outer.now (payload core true count bearer 0 value.now)) }
    ensures wrote { second.new ≡ over (beside (of_type outer.now (payload core true count bearer 0 value.now))) second.old }
{
    if 3 <= value.len() && has_type(core, count, bearer, outer, value) {
        let n = value.len();
        let input = Input {
            count,
            bearer,
            direction: UPLINK,
        };
        core.fill(true, input, value, &mut second[..n]);
        return Ok(n);
    }
    Err(Refusal::Container)
}

fn read_inside(
    core: Core,
    count: u32,
    bearer: u8,
    plain: &[u8],
    second: &mut [u8],
) -> Result<usize, Refusal>
    requires { (is_initial plain.now ≡ true) × (length plain.now ≤ length second.old) }
    ensures answer { result ≡ told (hidden_in (λ v. payload core true count bearer 0 v) plain.now (container_of plain.now)) }
    ensures wrote { second.new ≡ over (beside (hidden_in (λ v. payload core true count bearer 0 v) plain.now (container_of plain.now))) second.old }
{
    match initial::find_container(plain) {
        Err(_) => Err(Refusal::Container),
        Ok(None) => Ok(0),
        Ok(Some(span)) => {
            let end = span.start + span.length;
            take_inside(core, count, bearer, plain, &plain[span.start..end], second)
        }
    }
}

// The container's message of a plaintext to the front of the second output, where it is asked for: 18, or how many octets it has.
pub fn read_beside(
    core: Core,
    header_type: u8,
    input: Input,
    plain: &[u8],
    second: &mut [u8],
) -> Result<usize, Refusal>
    requires { header_type ≡ 1 → input.direction ≡ 0 → length plain.now ≤ length second.old }
    ensures answer { result ≡ told (beside_of core header_type input.count input.bearer input.direction plain.now) }
    ensures wrote { second.new ≡ over (beside (beside_of core header_type input.count input.bearer input.direction plain.now)) second.old }
{
    if initial::is_asked(header_type, input.direction, plain) {
        return read_inside(core, input.count, input.bearer, plain, second);
    }
    Ok(0)
}
