// Opening EPS messages.
ghost use Rattle.std.specs.Prelude.{◌≡◌, ◌-◌, ◌≤◌, ◌<◌, eqb, length};
ghost use Rattle.refusals.specs.Order.{◌when◌};
ghost use Rattle.refusals.specs.Numbers.{refused};
ghost use Rattle.nas_eps.specs.OpenAnswer.{told_open};
ghost use Rattle.nas_eps.specs.Places.{downlink, place_of};
ghost use Rattle.nas_eps.specs.Leaves.{leaves};
ghost use Rattle.nas_eps.specs.Open.{open_refusal, opened, Requested, open_of};

use crate::{Context, Direction, Opened, octets, request};
use count::Taken;
use nas_core::{Done, Received};
use refusals::Refusal;

// Refusal 11 of a SERVICE REQUEST.
fn check_way(direction: Direction) -> Result<(), Refusal>
    ensures { refused result ≡ 11 when (eqb (place_of direction) downlink) }
{
    match direction {
        Direction::Uplink => Ok(()),
        Direction::Downlink => Err(Refusal::WrongWay),
    }
}

impl Context {
    #[tactic(auto, unfolding(crate::specs::Open::open_refusal))]
    fn check_open(self, direction: Direction, message: &[u8], room: usize) -> Result<(), Refusal>
        ensures { refused result ≡ open_refusal self (place_of direction) message.now room }
    {
        self.check()?;
        octets::check_form(message)?;
        if octets::is_request(message[0]) {
            return check_way(direction);
        }
        nas_core::check_handing(octets::HEADER, message.len(), room)
    }

    fn receive(
        self,
        direction: u8,
        message: &[u8],
        out: &mut [u8],
    ) -> Done<Result<Opened, Refusal>, Context>
        requires { (direction < 2) × (self.core.size ≤ 64) × (6 ≤ length message.now) × (length message.now - 6 ≤ length out.old) }
        ensures { leaves (told_open result.answer) result.context out.new ≡ opened self direction message.now out.old }
    {
        let p = direction as usize;
        let core = self.core;
        let rec = self.records[p];
        let header_type = message[0] / 16;
        let wrote = message.len() - octets::HEADER;
        let taken = match octets::verify(core, rec, direction, message, out) {
            Ok(taken) => taken,
            Err(missed) => return self.unchanged(Err(Refusal::from(missed))),
        };
        // kept: two arms, since a late COUNT and a forward one are used under premises of their own.
        match taken {
            Taken::Late(count) => Done {
                answer: Ok(Opened::Message(Received {
                    count,
                    distance: rec.distance_to(count),
                    wrote,
                    header_type,
                })),
                context: self.used_late(p, count),
            },
            Taken::Forward(count) => Done {
                answer: Ok(Opened::Message(Received {
                    count,
                    distance: rec.distance_to(count),
                    wrote,
                    header_type,
                })),
                context: self.used(p, count),
            },
        }
    }

    // A SERVICE REQUEST opened, whatever the output: it is left alone.
    fn receive_request(
        self,
        direction: u8,
        message: &[u8],
    ) -> Done<Result<Opened, Refusal>, Context>
        requires { (direction < 2) × (self.core.size ≤ 64) × (length message.now ≡ 4) }
        ensures { Requested self direction message.now (told_open result.answer) result.context }
    {
        let p = direction as usize;
        let core = self.core;
        let rec = self.records[p];
        let Some(count) = rec.forward(5, core.wraps(), message[1] % 32) else {
            return self.unchanged(Err(Refusal::NoCount));
        };
        if !request::fits(core, count, message) {
            return self.unchanged(Err(Refusal::WrongCode));
        }
        Done {
            answer: Ok(Opened::ServiceRequest {
                count,
                distance: rec.distance_to(count),
                identifier: message[1] / 32,
            }),
            context: self.used(p, count),
        }
    }

    pub fn open(
        self,
        direction: Direction,
        message: &[u8],
        out: &mut [u8],
    ) -> Done<Result<Opened, Refusal>, Context>
        ensures { leaves (told_open result.answer) result.context out.new ≡ open_of self direction message.now out.old }
    {
        if let Err(refusal) = self.check_open(direction, message, out.len()) {
            return self.unchanged(Err(refusal));
        }
        if octets::is_request(message[0]) {
            return self.receive_request(direction.number(), message);
        }
        self.receive(direction.number(), message, out)
    }
}
