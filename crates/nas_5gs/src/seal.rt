// Sealing 5GS messages.
ghost use Rattle.std.specs.Prelude.{◌≡◌, ◌+◌, ◌≤◌, ◌<◌, length};
ghost use Rattle.refusals.specs.Numbers.{refused};
ghost use Rattle.count.specs.Rule.{exhausted};
ghost use Rattle.initial.specs.Messages.{mandatory_length};
ghost use Rattle.initial.specs.Outer.{outer_length};
ghost use Rattle.nas_core.specs.UseAnswer.{told_use};
ghost use Rattle.nas_core.specs.declared.Direction.TheVariants.{Uplink};
ghost use Rattle.nas_5gs.specs.Places.{direction_no, bearer_no, place_of, next_at};
ghost use Rattle.nas_5gs.specs.Leaves.{leaves};
ghost use Rattle.nas_5gs.specs.Seal.{seal_refusal, opaque_refusal, sent, seal_of, seal_opaque_of};
ghost use Rattle.nas_5gs.specs.Initial.{initial_refusal, sent_initial, initial_of};

use crate::{Connection, Context, Direction};
use aes::Input;
use nas_core::{Done, Spent};
use refusals::Refusal;

impl Context {
    #[tactic(auto, unfolding(crate::specs::Seal::seal_refusal))]
    fn check_seal(
        self,
        header_type: u8,
        direction: Direction,
        connection: Connection,
        inner: &[u8],
        room: usize,
    ) -> Result<(), Refusal>
        ensures { refused result ≡ seal_refusal self header_type (place_of direction connection) (direction_no direction) inner.now room }
    {
        self.check()?;
        if look::not_known(inner) {
            return Err(Refusal::NotKnown);
        }
        if nas_core::is_wrong_type(header_type) {
            return Err(Refusal::WrongHeaderType);
        }
        if look::not_together(header_type, inner) {
            return Err(Refusal::NotTogether);
        }
        if look::wrong_way(direction.number(), inner) {
            return Err(Refusal::WrongWay);
        }
        let next = self.next_count(direction, connection);
        nas_core::check_sending(envelope::HEADER, inner.len(), room, next)
    }

    #[tactic(auto, unfolding(crate::specs::Seal::opaque_refusal))]
    fn check_opaque(
        self,
        header_type: u8,
        direction: Direction,
        connection: Connection,
        inner: &[u8],
        room: usize,
    ) -> Result<(), Refusal>
        ensures { refused result ≡ opaque_refusal self header_type (place_of direction connection) inner.now room }
    {
        self.check()?;
        if nas_core::is_wrong_type(header_type) {
            return Err(Refusal::WrongHeaderType);
        }
        let next = self.next_count(direction, connection);
        nas_core::check_sending(envelope::HEADER, inner.len(), room, next)
    }

    fn send(
        self,
        header_type: u8,
        direction: Direction,
        connection: Connection,
        inner: &[u8],
        out: &mut [u8],
    ) -> Done<Result<Spent, Refusal>, Context>
        requires { (self.core.size ≤ 64) × (next_at self (place_of direction connection) < exhausted) × (7 + length inner.now ≤ length out.old) }
        ensures { leaves (told_use result.answer) result.context out.new ≡ sent self header_type (place_of direction connection) (bearer_no connection) (direction_no direction) inner.now out.old }
    {
        let count = self.next_count(direction, connection);
        let input = Input {
            count,
            bearer: connection.bearer(),
            direction: direction.number(),
        };
        let wrote = envelope::HEADER + inner.len();
        envelope::put(self.core, header_type, input, inner, out);
        Done {
            answer: Ok(Spent { count, wrote }),
            context: self.used(crate::place(direction, connection), count),
        }
    }

    // The inner message is looked at first.
    pub fn seal(
        self,
        header_type: u8,
        direction: Direction,
        connection: Connection,
        inner: &[u8],
        out: &mut [u8],
    ) -> Done<Result<Spent, Refusal>, Context>
        ensures { leaves (told_use result.answer) result.context out.new ≡ seal_of self header_type direction connection inner.now out.old }
    {
        match self.check_seal(header_type, direction, connection, inner, out.len()) {
            Err(refusal) => self.unchanged(Err(refusal)),
            Ok(()) => self.send(header_type, direction, connection, inner, out),
        }
    }

    // Any inner octets.
    pub fn seal_opaque(
        self,
        header_type: u8,
        direction: Direction,
        connection: Connection,
        inner: &[u8],
        out: &mut [u8],
    ) -> Done<Result<Spent, Refusal>, Context>
        ensures { leaves (told_use result.answer) result.context out.new ≡ seal_opaque_of self header_type direction connection inner.now out.old }
    {
        match self.check_opaque(header_type, direction, connection, inner, out.len()) {
            Err(refusal) => self.unchanged(Err(refusal)),
            Ok(()) => self.send(header_type, direction, connection, inner, out),
        }
    }

    #[tactic(auto, unfolding(crate::specs::Initial::initial_refusal))]
    fn check_initial(self, connection: Connection, whole: &[u8], room: usize) -> Result<(), Refusal>
        ensures { refused result ≡ initial_refusal self (place_of Uplink connection) whole.now room }
    {
        self.check()?;
        if !initial::is_initial(whole) {
            return Err(Refusal::NotKnown);
        }
        if !initial::is_hideable(whole) {
            return Err(Refusal::Container);
        }
        if nas_core::LIMIT < whole.len() {
            return Err(Refusal::TooLong);
        }
        let next = self.next_count(Direction::Uplink, connection);
        nas_core::check_sending(envelope::HEADER, initial::outer_length(whole), room, next)
    }

    fn send_initial(
        self,
        connection: Connection,
        whole: &[u8],
        out: &mut [u8],
    ) -> Done<Result<Spent, Refusal>, Context>
        requires { (self.core.size ≤ 64) × (next_at self (place_of Uplink connection) < exhausted) × (mandatory_length whole.now ≤ length whole.now) × (length whole.now ≤ 65535) × (7 + outer_length whole.now ≤ length out.old) }
        ensures { leaves (told_use result.answer) result.context out.new ≡ sent_initial self (place_of Uplink connection) (bearer_no connection) whole.now out.old }
    {
        let count = self.next_count(Direction::Uplink, connection);
        let wrote = envelope::HEADER + initial::outer_length(whole);
        envelope::put_initial(self.core, count, connection.bearer(), whole, out);
        Done {
            answer: Ok(Spent { count, wrote }),
            context: self.used(crate::place(Direction::Uplink, connection), count),
        }
    }

    // An initial message, whole: what is not cleartext goes out in its container.
    pub fn initial(
        self,
        connection: Connection,
        whole: &[u8],
        out: &mut [u8],
    ) -> Done<Result<Spent, Refusal>, Context>
        ensures { leaves (told_use result.answer) result.context out.new ≡ initial_of self connection whole.now out.old }
    {
        match self.check_initial(connection, whole, out.len()) {
            Err(refusal) => self.unchanged(Err(refusal)),
            Ok(()) => self.send_initial(connection, whole, out),
        }
    }
}
