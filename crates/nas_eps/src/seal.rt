// Sealing EPS messages.
ghost use Rattle.std.specs.Prelude.{◌≡◌, ◌+◌, ◌≤◌, ◌<◌, length};
ghost use Rattle.count.specs.Rule.{exhausted};
ghost use Rattle.refusals.specs.Numbers.{refused};
ghost use Rattle.nas_core.specs.UseAnswer.{told_use};
ghost use Rattle.nas_eps.specs.Places.{place_of, next_at};
ghost use Rattle.nas_eps.specs.Leaves.{leaves};
ghost use Rattle.nas_eps.specs.Seal.{seal_refusal, sent, seal_of, request_refusal, service_request_of};

use crate::{Context, Direction, octets, request};
use nas_core::{Done, Spent};
use refusals::Refusal;

impl Context {
    #[tactic(auto, unfolding(crate::specs::Seal::seal_refusal))]
    fn check_seal(
        self,
        header_type: u8,
        direction: Direction,
        inner: &[u8],
        room: usize,
    ) -> Result<(), Refusal>
        ensures { refused result ≡ seal_refusal self header_type (place_of direction) inner.now room }
    {
        self.check()?;
        if nas_core::is_wrong_type(header_type) {
            return Err(Refusal::WrongHeaderType);
        }
        let next = self.next_count(direction);
        nas_core::check_sending(octets::HEADER, inner.len(), room, next)
    }

    fn send(
        self,
        header_type: u8,
        direction: Direction,
        inner: &[u8],
        out: &mut [u8],
    ) -> Done<Result<Spent, Refusal>, Context>
        requires { (header_type ≤ 4) × (self.core.size ≤ 64) × (next_at self (place_of direction) < exhausted) × (6 + length inner.now ≤ length out.old) }
        ensures { leaves (told_use result.answer) result.context out.new ≡ sent self header_type (place_of direction) inner.now out.old }
    {
        let d = direction.number();
        let count = self.next_count(direction);
        let wrote = octets::HEADER + inner.len();
        octets::put(self.core, header_type, count, d, inner, out);
        Done {
            answer: Ok(Spent { count, wrote }),
            context: self.used(d as usize, count),
        }
    }

    // Any inner octets, none too.
    pub fn seal(
        self,
        header_type: u8,
        direction: Direction,
        inner: &[u8],
        out: &mut [u8],
    ) -> Done<Result<Spent, Refusal>, Context>
        ensures { leaves (told_use result.answer) result.context out.new ≡ seal_of self header_type direction inner.now out.old }
    {
        match self.check_seal(header_type, direction, inner, out.len()) {
            Err(refusal) => self.unchanged(Err(refusal)),
            Ok(()) => self.send(header_type, direction, inner, out),
        }
    }

    #[tactic(auto, unfolding(crate::specs::Seal::request_refusal))]
    fn check_request(self, identifier: u8, room: usize) -> Result<(), Refusal>
        ensures { refused result ≡ request_refusal self identifier room }
    {
        self.check()?;
        if 7 < identifier {
            return Err(Refusal::OutOfRange);
        }
        if room < request::LENGTH {
            return Err(Refusal::NoRoom);
        }
        if count::EXHAUSTED <= self.records[crate::UPLINK].next {
            return Err(Refusal::NoCount);
        }
        Ok(())
    }

    // Seal SERVICE REQUEST.
    pub fn service_request(
        self,
        identifier: u8,
        out: &mut [u8],
    ) -> Done<Result<Spent, Refusal>, Context>
        ensures { leaves (told_use result.answer) result.context out.new ≡ service_request_of self identifier out.old }
    {
        if let Err(refusal) = self.check_request(identifier, out.len()) {
            return self.unchanged(Err(refusal));
        }
        let count = self.records[crate::UPLINK].next;
        request::put(self.core, identifier, count, out);
        Done {
            answer: Ok(Spent {
                count,
                wrote: request::LENGTH,
            }),
            context: self.used(crate::UPLINK, count),
        }
    }
}
