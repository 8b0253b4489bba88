// The 5GS NAS security context and its calls. Every call takes the context by value and hands it back with its answer.
#![tactic(auto)]

ghost use Rattle.std.specs.Prelude.{◌≡◌, false, [], ◌∷◌, ◌+◌, ◌≤◌, ◌<◌};
ghost use Rattle.count.specs.Rule.{exhausted};
ghost use Rattle.refusals.specs.Numbers.{refused};
ghost use Rattle.nas_core.specs.Keyed.{wraps};
ghost use Rattle.nas_5gs.specs.Places.{bearer_no, place_of, record_at, with_record, any_over, fault_of, used, used_late};

mod change;
mod containers;
mod eps;
mod open;
mod seal;

use count::{Record, Taken};
pub use nas_core::Direction;
use nas_core::{Core, Done, Received};
use refusals::Refusal;

#[derive(Clone, Copy, Debug, PartialEq, Eq)]
pub enum Connection {
    ThreeGpp,
    Non3Gpp,
}

// Four records in a row: uplink and downlink of 3GPP access, then of non-3GPP access.
#[repr(C)]
#[derive(Clone, Copy, PartialEq, Eq)]
pub struct Context {
    pub core: Core,
    pub records: [Record; 4],
}

// The records of EPS messages and of containers: uplink and downlink of 3GPP access.
const EPS_PLACE: usize = 0;

const CONTAINER_PLACE: usize = 1;

// A message accepted. `second` is how many octets of the container's message stand in the second output.
#[derive(Clone, Copy, Debug, PartialEq, Eq)]
pub struct Opened {
    pub message: Received,
    pub second: usize,
}

// An EPS message of a UE that goes from 5GS to EPS.
#[derive(Clone, Copy, Debug, PartialEq, Eq)]
pub struct EpsReceived {
    pub count: u32,
    pub distance: u32,
    pub wrote: usize,
}

// `Content` is refusal 8: the COUNT of a message M is used and its plaintext handed over, and the content is refused as it says.
#[derive(Clone, Copy, Debug, PartialEq, Eq)]
pub enum OpenError<M> {
    Refused(Refusal),
    Content(M, Refusal),
}

// The N1-to-S1 container made: its one octet.
#[derive(Clone, Copy, Debug, PartialEq, Eq)]
pub struct MadeOctet {
    pub count: u32,
    pub octet: u8,
}

// The N1-to-S1 container verified: it writes nothing.
#[derive(Clone, Copy, Debug, PartialEq, Eq)]
pub struct Reached {
    pub count: u32,
    pub distance: u32,
}

impl Connection {
    // 1 and 2.
    pub fn bearer(self) -> u8
        ensures { result ≡ bearer_no self }
    {
        match self {
            Connection::ThreeGpp => 1,
            Connection::Non3Gpp => 2,
        }
    }
}

fn place(direction: Direction, connection: Connection) -> usize
    ensures { (result ≡ place_of direction connection) × (result < 4) }
{
    match (direction, connection) {
        (Direction::Uplink, Connection::ThreeGpp) => 0,
        (Direction::Downlink, Connection::ThreeGpp) => 1,
        (Direction::Uplink, Connection::Non3Gpp) => 2,
        (Direction::Downlink, Connection::Non3Gpp) => 3,
    }
}

// kept: nas_eps has calls of this form over two records: a type of another crate takes no methods, and promises and promises_eps speak of each context's own type.
// kept: `size ≤ 64` in a `requires` is what `check` has found: a second type of context that says so would be made and taken apart in each call.
impl Context {
    fn with(self, p: usize, rec: Record) -> Context
        requires { p < 4 }
        ensures { result ≡ with_record self p rec }
    {
        let mut next = self;
        next.records[p] = rec;
        next
    }

    // What is answered where nothing is used: the context goes back as it came.
    fn unchanged<A>(self, answer: A) -> Done<A, Context>
        ensures { (result.answer ≡ answer) × (result.context ≡ self) }
    {
        Done {
            answer,
            context: self,
        }
    }

    // Refusals 13, 14 and 16 of what the context holds.
    #[tactic(auto, unfolding(crate::specs::Places::fault_of))]
    fn check(self) -> Result<(), Refusal>
        ensures { refused result ≡ fault_of self }
    {
        let [a, b, c, d] = self.records;
        self.core.check_with(&[a.next, b.next, c.next, d.next])
    }

    // The COUNT used forward in the record at p.
    fn used(self, p: usize, c: u32) -> Context
        requires { (p < 4) × (c < exhausted) × (self.core.size ≤ 64) × (wraps self.core ≡ false → (record_at self p).next ≤ c) }
        ensures { result ≡ used self p c }
    {
        let core = self.core;
        let rec = self.records[p];
        self.with(p, core.advance(rec, c))
    }

    // The COUNT used late in the record at p.
    fn used_late(self, p: usize, c: u32) -> Context
        requires { (p < 4) × (c + 1 < (record_at self p).next) × ((record_at self p).next ≤ c + 65) }
        ensures { result ≡ used_late self p c }
    {
        let rec = self.records[p];
        self.with(p, rec.use_late(c))
    }
}
