// Opening 5GS messages.
ghost use Rattle.std.specs.Prelude.{◌≡◌, ℕ, ◌-◌, ◌≤◌, ◌<◌, length, Ok};
ghost use Rattle.refusals.specs.Numbers.{refused};
ghost use Rattle.look.specs.Look.{look_of};
ghost use Rattle.envelope.specs.Initial.{beside_of, beside};
ghost use Rattle.nas_5gs.specs.Places.{direction_no, bearer_no, place_of};
ghost use Rattle.nas_5gs.specs.OpenAnswer.{told_open};
ghost use Rattle.nas_5gs.specs.Leaves.{leaves_two, over};
ghost use Rattle.nas_5gs.specs.Open.{type_of, open_refusal, room_for, inside_number, open_answer, opened, open_of};

use crate::{Connection, Context, Direction, OpenError, Opened};
use aes::Input;
use count::Taken;
use nas_core::{Core, Done, Received};
use refusals::Refusal;

// The room that a message may take: that of the shorter output where a second one is needed.
#[tactic(auto, unfolding(crate::specs::Open::room_for))]
fn room_for(direction: u8, message: &[u8], room: usize, second: usize) -> usize
    ensures { result ≡ room_for (type_of message.now) direction room second }
{
    if 2 <= message.len() && message[1] % 16 == 1 && direction == 0 {
        return room.min(second);
    }
    room
}

// What is inside a plaintext: refused, or how many octets of the container's message went to the second output.
fn read_inside(
    core: Core,
    header_type: u8,
    input: Input,
    plain: &[u8],
    second: &mut [u8],
) -> Result<usize, Refusal>
    requires { header_type ≡ 1 → input.direction ≡ 0 → length plain.now ≤ length second.old }
    ensures number { refused result ≡ inside_number (look_of header_type input.direction plain.now) (beside_of core header_type input.count input.bearer input.direction plain.now) }
    ensures handed { (n : ℕ) → result ≡ Ok n → n ≡ length (beside (beside_of core header_type input.count input.bearer input.direction plain.now)) }
    ensures wrote { second.new ≡ over (beside (beside_of core header_type input.count input.bearer input.direction plain.now)) second.old }
{
    look::look(header_type, input.direction, plain)?;
    envelope::read_beside(core, header_type, input, plain, second)
}

// The plaintext is looked at, and the message of its container goes to the second output.
fn hand(
    core: Core,
    header_type: u8,
    input: Input,
    distance: u32,
    plain: &[u8],
    second: &mut [u8],
) -> Result<Opened, OpenError<Received>>
    requires { header_type ≡ 1 → input.direction ≡ 0 → length plain.now ≤ length second.old }
    ensures answer { told_open result ≡ open_answer input.count distance (length plain.now) header_type (inside_number (look_of header_type input.direction plain.now) (beside_of core header_type input.count input.bearer input.direction plain.now)) (length (beside (beside_of core header_type input.count input.bearer input.direction plain.now))) }
    ensures wrote { second.new ≡ over (beside (beside_of core header_type input.count input.bearer input.direction plain.now)) second.old }
{
    let message = Received {
        count: input.count,
        distance,
        wrote: plain.len(),
        header_type,
    };
    match read_inside(core, header_type, input, plain, second) {
        Ok(second) => Ok(Opened { message, second }),
        Err(refusal) => Err(OpenError::Content(message, refusal)),
    }
}

impl Context {
    #[tactic(auto, unfolding(crate::specs::Open::open_refusal))]
    fn check_open(self, message: &[u8], room: usize) -> Result<(), Refusal>
        ensures { refused result ≡ open_refusal self message.now room }
    {
        self.check()?;
        if message.len() < 7 {
            return Err(Refusal::WrongLength);
        }
        if message[0] != 0x7e {
            return Err(Refusal::WrongFirstOctet);
        }
        if nas_core::is_wrong_type(message[1] % 16) {
            return Err(Refusal::WrongHeaderType);
        }
        if message.len() == 7 {
            return Err(Refusal::WrongLength);
        }
        nas_core::check_handing(envelope::HEADER, message.len(), room)
    }

    fn receive(
        self,
        p: usize,
        bearer: u8,
        direction: u8,
        message: &[u8],
        out: &mut [u8],
        second: &mut [u8],
    ) -> Done<Result<Opened, OpenError<Received>>, Context>
        requires { (p < 4) × (self.core.size ≤ 64) × (7 ≤ length message.now) × (length message.now - 7 ≤ length out.old) × (type_of message.now ≡ 1 → direction ≡ 0 → length message.now - 7 ≤ length second.old) }
        ensures { leaves_two (told_open result.answer) result.context out.new second.new ≡ opened self p bearer direction message.now out.old second.old }
    {
        let core = self.core;
        let rec = self.records[p];
        let t = message[1] % 16;
        let n = message.len() - envelope::HEADER;
        let taken = match envelope::read(core, rec, t, bearer, direction, message, out) {
            Ok(taken) => taken,
            Err(missed) => return self.unchanged(Err(OpenError::Refused(Refusal::from(missed)))),
        };
        // kept: two arms, since a late COUNT and a forward one are used under premises of their own.
        match taken {
            Taken::Late(count) => {
                let input = Input {
                    count,
                    bearer,
                    direction,
                };
                let far = rec.distance_to(count);
                Done {
                    answer: hand(core, t, input, far, &out[..n], second),
                    context: self.used_late(p, count),
                }
            }
            Taken::Forward(count) => {
                let input = Input {
                    count,
                    bearer,
                    direction,
                };
                let far = rec.distance_to(count);
                Done {
                    answer: hand(core, t, input, far, &out[..n], second),
                    context: self.used(p, count),
                }
            }
        }
    }

    // A message of header type 1 and uplink may have a container: its message goes to the second output, which is then as long as the first.
    pub fn open(
        self,
        direction: Direction,
        connection: Connection,
        message: &[u8],
        out: &mut [u8],
        second: &mut [u8],
    ) -> Done<Result<Opened, OpenError<Received>>, Context>
        ensures { leaves_two (told_open result.answer) result.context out.new second.new ≡ open_of self direction connection message.now out.old second.old }
    {
        let d = direction.number();
        let room = room_for(d, message, out.len(), second.len());
        match self.check_open(message, room) {
            Err(refusal) => self.unchanged(Err(OpenError::Refused(refusal))),
            Ok(()) => {
                let p = crate::place(direction, connection);
                self.receive(p, connection.bearer(), d, message, out, second)
            }
        }
    }
}
