// The EPS NAS security context and its calls. Every call takes the context by value and hands it back with its answer.
#![tactic(auto)]

ghost use Rattle.std.specs.Prelude.{◌≡◌, false, ◌+◌, ◌≤◌, ◌<◌};
ghost use Rattle.count.specs.Rule.{exhausted};
ghost use Rattle.nas_core.specs.Keyed.{wraps};
ghost use Rattle.refusals.specs.Numbers.{refused};
ghost use Rattle.nas_eps.specs.Places.{record_at, with_record, fault_of, used, used_late};

mod change;
mod octets;
mod open;
mod request;
mod seal;

use count::Record;
pub use nas_core::Direction;
use nas_core::{Core, Done, Received};
use refusals::Refusal;

// Two records, uplink and downlink.
#[repr(C)]
#[derive(Clone, Copy, PartialEq, Eq)]
pub struct Context {
    pub core: Core,
    pub records: [Record; 2],
}

// What was opened. A SERVICE REQUEST hands over no octet; which key set its identifier names is for the host to compare. Its code has 16 bits: one that is out
// of reach is taken as another COUNT one time in 65,536.
#[derive(Clone, Copy, Debug, PartialEq, Eq)]
pub enum Opened {
    Message(Received),
    ServiceRequest {
        count: u32,
        distance: u32,
        identifier: u8,
    },
}

// The record of SERVICE REQUESTs.
const UPLINK: usize = 0;

// kept: twins of nas_5gs's calls, and `size ≤ 64`, as there.
impl Context {
    fn with(self, p: usize, rec: Record) -> Context
        requires { p < 2 }
        ensures { result ≡ with_record self p rec }
    {
        let mut next = self;
        next.records[p] = rec;
        next
    }

    // What is answered where nothing is used: the context goes back as it came.
    fn unchanged<A>(self, answer: A) -> Done<A, Context>
        ensures { (result.answer ≡ answer) × (result.context ≡ self) }
    {
        Done {
            answer,
            context: self,
        }
    }

    // Refusals 13, 14 and 16 of what the context holds.
    #[tactic(auto, unfolding(crate::specs::Places::fault_of))]
    fn check(self) -> Result<(), Refusal>
        ensures { refused result ≡ fault_of self }
    {
        let [up, down] = self.records;
        self.core.check_with(&[up.next, down.next])
    }

    // The COUNT used forward in the record at p.
    fn used(self, p: usize, c: u32) -> Context
        requires { (p < 2) × (c < exhausted) × (self.core.size ≤ 64) × (wraps self.core ≡ false → (record_at self p).next ≤ c) }
        ensures { result ≡ used self p c }
    {
        let core = self.core;
        let rec = self.records[p];
        self.with(p, core.advance(rec, c))
    }

    // The COUNT used late in the record at p.
    fn used_late(self, p: usize, c: u32) -> Context
        requires { (p < 2) × (c + 1 < (record_at self p).next) × ((record_at self p).next ≤ c + 65) }
        ensures { result ≡ used_late self p c }
    {
        let rec = self.records[p];
        self.with(p, rec.use_late(c))
    }
}
