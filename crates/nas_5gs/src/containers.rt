// The NAS transparent containers of a handover between 5GS and EPS: downlink 3GPP record, bearer 1, direction 1.
ghost use Rattle.std.specs.Prelude.{◌≡◌, [], ◌<◌};
ghost use Rattle.refusals.specs.Numbers.{refused};
ghost use Rattle.nas_core.specs.UseAnswer.{told_use};
ghost use Rattle.nas_5gs.specs.OctetAnswer.{told_octet};
ghost use Rattle.nas_5gs.specs.VerifyAnswer.{told_verify};
ghost use Rattle.nas_5gs.specs.Leaves.{leaves};
ghost use Rattle.nas_5gs.specs.Containers.{n1_to_s1_of, verify_n1_to_s1_of, s1_to_n1_refusal, s1_to_n1_of, verify_s1_to_n1_refusal, verify_s1_to_n1_of};

use crate::{CONTAINER_PLACE, Context, MadeOctet, Reached};
use nas_core::{Done, Spent};
use refusals::Refusal;

impl Context {
    pub fn n1_to_s1_container(self) -> Done<Result<MadeOctet, Refusal>, Context>
        ensures { leaves (told_octet result.answer) result.context [] ≡ n1_to_s1_of self }
    {
        if let Err(refusal) = self.check() {
            return self.unchanged(Err(refusal));
        }
        let count = self.records[CONTAINER_PLACE].next;
        if count::EXHAUSTED <= count {
            return self.unchanged(Err(Refusal::NoCount));
        }
        let octet = (count % 256) as u8;
        Done {
            answer: Ok(MadeOctet { count, octet }),
            context: self.used(CONTAINER_PLACE, count),
        }
    }

    pub fn verify_n1_to_s1_container(self, octet: u8) -> Done<Result<Reached, Refusal>, Context>
        ensures { leaves (told_verify result.answer) result.context [] ≡ verify_n1_to_s1_of self octet }
    {
        if let Err(refusal) = self.check() {
            return self.unchanged(Err(refusal));
        }
        let rec = self.records[CONTAINER_PLACE];
        match self.core.forward(rec, octet) {
            None => self.unchanged(Err(Refusal::NoCount)),
            Some(count) => Done {
                answer: Ok(Reached {
                    count,
                    distance: rec.distance_to(count),
                }),
                context: self.used(CONTAINER_PLACE, count),
            },
        }
    }

    #[tactic(auto, unfolding(crate::specs::Containers::s1_to_n1_refusal))]
    fn check_s1_to_n1(self, ncc: u8, ngksi: u8, room: usize) -> Result<(), Refusal>
        ensures { refused result ≡ s1_to_n1_refusal self ncc ngksi room }
    {
        self.check()?;
        if 7 < ncc || 15 < ngksi {
            return Err(Refusal::OutOfRange);
        }
        if room < 8 {
            return Err(Refusal::NoRoom);
        }
        if count::EXHAUSTED <= self.records[CONTAINER_PLACE].next {
            return Err(Refusal::NoCount);
        }
        Ok(())
    }

    pub fn s1_to_n1_container(
        self,
        ncc: u8,
        ngksi: u8,
        out: &mut [u8],
    ) -> Done<Result<Spent, Refusal>, Context>
        ensures { leaves (told_use result.answer) result.context out.new ≡ s1_to_n1_of self ncc ngksi out.old }
    {
        if let Err(refusal) = self.check_s1_to_n1(ncc, ngksi, out.len()) {
            return self.unchanged(Err(refusal));
        }
        let count = self.records[CONTAINER_PLACE].next;
        envelope::put_s1_to_n1(self.core, ncc, ngksi, out);
        Done {
            answer: Ok(Spent { count, wrote: 8 }),
            context: self.used(CONTAINER_PLACE, count),
        }
    }

    #[tactic(auto, unfolding(crate::specs::Containers::verify_s1_to_n1_refusal))]
    fn check_verify_s1_to_n1(self, value: &[u8]) -> Result<(), Refusal>
        ensures { refused result ≡ verify_s1_to_n1_refusal self value.now }
    {
        self.check()?;
        if value.len() < 8 {
            return Err(Refusal::WrongLength);
        }
        if nas_core::LIMIT < value.len() {
            return Err(Refusal::TooLong);
        }
        if envelope::other_algorithms(self.core, value) {
            return Err(Refusal::OtherAlgorithms);
        }
        if count::EXHAUSTED <= self.records[CONTAINER_PLACE].next {
            return Err(Refusal::NoCount);
        }
        if !envelope::fits_s1_to_n1(self.core, value) {
            return Err(Refusal::WrongCode);
        }
        Ok(())
    }

    // A longer value is verified whole.
    pub fn verify_s1_to_n1_container(self, value: &[u8]) -> Done<Result<Spent, Refusal>, Context>
        ensures { leaves (told_use result.answer) result.context [] ≡ verify_s1_to_n1_of self value.now }
    {
        if let Err(refusal) = self.check_verify_s1_to_n1(value) {
            return self.unchanged(Err(refusal));
        }
        let count = self.records[CONTAINER_PLACE].next;
        Done {
            answer: Ok(Spent { count, wrote: 0 }),
            context: self.used(CONTAINER_PLACE, count),
        }
    }
}
