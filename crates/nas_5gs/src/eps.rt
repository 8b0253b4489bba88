// The EPS message of a UE that goes from 5GS to EPS: uplink 3GPP record, bearer 1, direction 0.
ghost use Rattle.std.specs.Prelude.{◌≡◌, ◌+◌, ◌-◌, ◌≤◌, ◌<◌, length};
ghost use Rattle.refusals.specs.Numbers.{refused};
ghost use Rattle.envelope.specs.Eps.{not_eps};
ghost use Rattle.nas_core.specs.UseAnswer.{told_use};
ghost use Rattle.nas_5gs.specs.EpsOpenAnswer.{told_eps_open};
ghost use Rattle.nas_5gs.specs.Leaves.{leaves};
ghost use Rattle.nas_5gs.specs.Eps.{seal_eps_refusal, seal_eps_of, open_eps_refusal, eps_answer, eps_opened, open_eps_of};

use crate::{Context, EpsReceived, OpenError};
use count::Taken;
use nas_core::{Done, Spent};
use refusals::Refusal;

// What follows the header is looked at.
fn hand_eps(count: u32, distance: u32, plain: &[u8]) -> Result<EpsReceived, OpenError<EpsReceived>>
    ensures { told_eps_open result ≡ eps_answer count distance (length plain.now) (not_eps plain.now) }
{
    let message = EpsReceived {
        count,
        distance,
        wrote: plain.len(),
    };
    if envelope::not_eps(plain) {
        return Err(OpenError::Content(message, Refusal::NotEps));
    }
    Ok(message)
}

impl Context {
    #[tactic(auto, unfolding(crate::specs::Eps::seal_eps_refusal))]
    fn check_seal_eps(self, inner: &[u8], room: usize) -> Result<(), Refusal>
        ensures { refused result ≡ seal_eps_refusal self inner.now room }
    {
        self.check()?;
        if envelope::not_eps(inner) {
            return Err(Refusal::NotEps);
        }
        let next = self.records[crate::EPS_PLACE].next;
        nas_core::check_sending(envelope::EPS_HEADER, inner.len(), room, next)
    }

    pub fn seal_eps(self, inner: &[u8], out: &mut [u8]) -> Done<Result<Spent, Refusal>, Context>
        ensures { leaves (told_use result.answer) result.context out.new ≡ seal_eps_of self inner.now out.old }
    {
        if let Err(refusal) = self.check_seal_eps(inner, out.len()) {
            return self.unchanged(Err(refusal));
        }
        let count = self.records[crate::EPS_PLACE].next;
        let wrote = envelope::EPS_HEADER + inner.len();
        envelope::put_eps(self.core, count, inner, out);
        Done {
            answer: Ok(Spent { count, wrote }),
            context: self.used(crate::EPS_PLACE, count),
        }
    }

    #[tactic(auto, unfolding(crate::specs::Eps::open_eps_refusal))]
    fn check_open_eps(self, message: &[u8], room: usize) -> Result<(), Refusal>
        ensures { refused result ≡ open_eps_refusal self message.now room }
    {
        self.check()?;
        if message.len() < 6 {
            return Err(Refusal::WrongLength);
        }
        if message[0] != 0x17 {
            return Err(Refusal::WrongFirstOctet);
        }
        nas_core::check_handing(envelope::EPS_HEADER, message.len(), room)
    }

    fn receive_eps(
        self,
        message: &[u8],
        out: &mut [u8],
    ) -> Done<Result<EpsReceived, OpenError<EpsReceived>>, Context>
        requires { (self.core.size ≤ 64) × (6 ≤ length message.now) × (length message.now - 6 ≤ length out.old) }
        ensures { leaves (told_eps_open result.answer) result.context out.new ≡ eps_opened self message.now out.old }
    {
        let core = self.core;
        let rec = self.records[crate::EPS_PLACE];
        let taken = match envelope::read_eps(core, rec, message, out) {
            Ok(taken) => taken,
            Err(missed) => return self.unchanged(Err(OpenError::Refused(Refusal::from(missed)))),
        };
        // kept: two arms, since a late COUNT and a forward one are used under premises of their own.
        match taken {
            Taken::Late(c) => Done {
                answer: hand_eps(c, rec.distance_to(c), &message[envelope::EPS_HEADER..]),
                context: self.used_late(crate::EPS_PLACE, c),
            },
            Taken::Forward(c) => Done {
                answer: hand_eps(c, rec.distance_to(c), &message[envelope::EPS_HEADER..]),
                context: self.used(crate::EPS_PLACE, c),
            },
        }
    }

    pub fn open_eps(
        self,
        message: &[u8],
        out: &mut [u8],
    ) -> Done<Result<EpsReceived, OpenError<EpsReceived>>, Context>
        ensures { leaves (told_eps_open result.answer) result.context out.new ≡ open_eps_of self message.now out.old }
    {
        match self.check_open_eps(message, out.len()) {
            Err(refusal) => self.unchanged(Err(OpenError::Refused(refusal))),
            Ok(()) => self.receive_eps(message, out),
        }
    }
}
