// What a 5GS and an EPS context share: keys, codes and size, the code of octets and their ciphering, a record's COUNT verified and used, and the answers.
#![tactic(auto)]

ghost use Rattle.std.specs.Prelude.{◌≡◌, true, false, cond, ◌++◌, ◌∷◌, [], ◌+◌, ◌-◌, ◌≤◌, ◌<◌, length, take, drop, get_or};
ghost use Rattle.count.specs.Rule.{exhausted, forward_of, late_of, try_forward};
ghost use Rattle.refusals.specs.Order.{◌when◌, first};
ghost use Rattle.refusals.specs.Numbers.{refused};
ghost use Rattle.nas_core.specs.Refusals.{core_fault, send_refusals, hand_refusals, unbuilt, any_over, held_refusals};
ghost use Rattle.nas_core.specs.Types.{wrong_type, ciphers, direction_no};
ghost use Rattle.nas_core.specs.Keyed.{wraps, away_from_null, code_by, payload, protected};
ghost use Rattle.nas_core.specs.Verify.{same, fits, verify_of, advanced};
ghost use Rattle.nas_core.specs.Leaves.{read_as};

use aes::{Input, Key};
use count::{Missed, Record, Taken};
use refusals::Refusal;

// The most inner octets, and the longest container value.
pub const LIMIT: usize = 65535;

#[repr(C)]
#[derive(Clone, Copy, PartialEq, Eq)]
pub struct Core {
    pub integrity: u8,
    pub ciphering: u8,
    pub integrity_key: Key,
    pub ciphering_key: Key,
    pub size: u8,
}

// What a call hands back: its answer, and the context that is to be kept.
#[derive(Clone, Copy)]
pub struct Done<A, X> {
    pub answer: A,
    pub context: X,
}

// A COUNT used, and how many octets were written.
#[derive(Clone, Copy, Debug, PartialEq, Eq)]
pub struct Spent {
    pub count: u32,
    pub wrote: usize,
}

// A message opened: the distance says how many COUNTs a forward one skipped, or how far below the highest used a late one lies.
#[derive(Clone, Copy, Debug, PartialEq, Eq)]
pub struct Received {
    pub count: u32,
    pub distance: u32,
    pub wrote: usize,
    pub header_type: u8,
}

#[derive(Clone, Copy, Debug, PartialEq, Eq)]
pub enum Direction {
    Uplink,
    Downlink,
}

impl Direction {
    // As the algorithms take it.
    pub fn number(self) -> u8
        ensures { (result ≡ direction_no self) × (result < 2) }
    {
        match self {
            Direction::Uplink => 0,
            Direction::Downlink => 1,
        }
    }
}

// Whether one of two codes is not built.
#[tactic(auto, unfolding(crate::specs::Refusals::unbuilt))]
pub fn is_unbuilt(integrity: u8, ciphering: u8) -> bool
    ensures { result ≡ unbuilt integrity ciphering }
{
    !algorithms::built(integrity) || !algorithms::built(ciphering)
}

// Whether a reselection leaves null integrity.
#[tactic(auto, unfolding(crate::specs::Keyed::away_from_null))]
pub fn away_from_null(from: u8, to: u8) -> bool
    ensures { result ≡ away_from_null from to }
{
    from == 0 && to != 0
}

// kept: a header type is a number, as a code is: the calls take any, and refusal 3 is given for those that are none.
// Refusal 3.
#[tactic(auto, unfolding(crate::specs::Types::wrong_type))]
pub fn is_wrong_type(header_type: u8) -> bool
    ensures { result ≡ wrong_type header_type }
{
    header_type < 1 || 4 < header_type
}

#[tactic(auto, unfolding(crate::specs::Types::ciphers))]
pub fn is_ciphering(header_type: u8) -> bool
    ensures { result ≡ ciphers header_type }
{
    header_type == 2 || header_type == 4
}

// Refusals 4, 5 and 6 of a call that sends.
pub fn check_sending(header: usize, n: usize, room: usize, next: u32) -> Result<(), Refusal>
    requires { header ≤ 8 }
    ensures { refused result ≡ first (send_refusals header n room next) }
{
    if LIMIT < n {
        return Err(Refusal::TooLong);
    }
    if room < header + n {
        return Err(Refusal::NoRoom);
    }
    if count::EXHAUSTED <= next {
        return Err(Refusal::NoCount);
    }
    Ok(())
}

// Refusals 4 and 5 of a call that hands over what is behind a header.
pub fn check_handing(header: usize, n: usize, room: usize) -> Result<(), Refusal>
    requires { header ≤ n }
    ensures { refused result ≡ first (hand_refusals header n room) }
{
    let inner = n - header;
    if LIMIT < inner {
        return Err(Refusal::TooLong);
    }
    if room < inner {
        return Err(Refusal::NoRoom);
    }
    Ok(())
}

// Whether a next COUNT is none: above 16,777,216.
pub fn any_over(next: &[u32]) -> bool
    ensures { result ≡ any_over next.now }
{
    next.iter().any(|n| count::EXHAUSTED < *n)
}

// The four octets are compared as one number, at once.
fn is_code(code: [u8; 4], received: &[u8]) -> bool
    requires { length received.now ≡ 4 }
    ensures { result ≡ same received.now code }
{
    let stands = u32::from_be_bytes([received[0], received[1], received[2], received[3]]);
    stands == u32::from_be_bytes(code)
}

// The code in front of what it covers.
pub fn put_code(code: [u8; 4], body: &mut [u8])
    requires { 4 ≤ length body.old }
    ensures { body.new ≡ code ++ drop 4 body.old }
{
    body[..4].copy_from_slice(&code);
}

impl Core {
    // Whether COUNTs go round.
    #[tactic(auto, unfolding(crate::specs::Keyed::wraps))]
    pub fn wraps(self) -> bool
        ensures { result ≡ wraps self }
    {
        self.integrity == 0
    }

    // Refusals 13 and 14 of what the context holds.
    #[tactic(auto, unfolding(crate::specs::Refusals::core_fault))]
    fn check(self) -> Result<(), Refusal>
        ensures { refused result ≡ core_fault self }
    {
        if is_unbuilt(self.integrity, self.ciphering) {
            return Err(Refusal::NotBuilt);
        }
        if 64 < self.size {
            return Err(Refusal::WindowTooLarge);
        }
        Ok(())
    }

    // Refusals 13, 14 and 16 of what a context holds beside its keys, with the next COUNTs of its records.
    pub fn check_with(self, next: &[u32]) -> Result<(), Refusal>
        ensures { refused result ≡ first (held_refusals self next.now) }
    {
        self.check()?;
        if any_over(next) {
            return Err(Refusal::OutOfRange);
        }
        Ok(())
    }

    #[tactic(auto, unfolding(crate::specs::Keyed::code_by))]
    pub fn code(self, input: Input, octets: &[u8]) -> [u8; 4]
        ensures { result ≡ code_by self input.count input.bearer input.direction octets.now }
    {
        let key = self.integrity_key;
        algorithms::code(self.integrity, key, input, octets)
    }

    // The octets of `inner` over those of `out`, and ciphered there if they are to be.
    #[tactic(auto, unfolding(crate::specs::Keyed::payload))]
    pub fn fill(self, ciphered: bool, input: Input, inner: &[u8], out: &mut [u8])
        requires { length inner.now ≡ length out.old }
        ensures { out.new ≡ payload self ciphered input.count input.bearer input.direction inner.now }
    {
        out.copy_from_slice(inner);
        if ciphered {
            let key = self.ciphering_key;
            algorithms::cipher(self.ciphering, key, input, out);
        }
    }

    // What is behind the first octet ciphered where it lies, if it is to be, and the code of the whole then.
    fn cipher_and_code(self, ciphered: bool, input: Input, octets: &mut [u8]) -> [u8; 4]
        requires { 1 ≤ length octets.old }
        ensures ciphered { octets.new ≡ take 1 octets.old ++ payload self ciphered input.count input.bearer input.direction (drop 1 octets.old) }
        ensures code { result ≡ code_by self input.count input.bearer input.direction octets.new }
    {
        if ciphered {
            let integrity_key = self.integrity_key;
            let ciphering_key = self.ciphering_key;
            return algorithms::protect(
                self.integrity,
                self.ciphering,
                integrity_key,
                ciphering_key,
                input,
                octets,
            );
        }
        self.code(input, octets)
    }

    // The inner octets stand behind five octets: they are ciphered if they are to be, and the code and the last octet of the COUNT are written in front.
    pub fn seal(self, ciphered: bool, input: Input, body: &mut [u8])
        requires { 5 ≤ length body.old }
        ensures { body.new ≡ protected self input.count input.bearer input.direction (payload self ciphered input.count input.bearer input.direction (drop 5 body.old)) }
    {
        body[4] = (input.count % 256) as u8;
        let code = self.cipher_and_code(ciphered, input, &mut body[4..]);
        put_code(code, body);
    }

    // The payload stands behind five octets: the code and the last octet of the COUNT are written there.
    pub fn protect(self, input: Input, body: &mut [u8])
        requires { 5 ≤ length body.old }
        ensures { body.new ≡ protected self input.count input.bearer input.direction (drop 5 body.old) }
    {
        self.seal(false, input, body);
    }

    // Whether the code that begins at octet `at` fits the COUNT.
    pub fn fits(self, input: Input, at: usize, message: &[u8]) -> bool
        requires { at + 4 ≤ length message.now }
        ensures { result ≡ fits self input.count input.bearer input.direction at message.now }
    {
        if self.wraps() {
            return true;
        }
        let end = at + 4;
        let code = self.code(input, &message[end..]);
        is_code(code, &message[at..end])
    }

    fn late(self, rec: Record, s: u8) -> Option<u32>
        ensures { result ≡ cond (wraps self) None (late_of 8 self.size rec s) }
    {
        if self.wraps() {
            return None;
        }
        rec.late(self.size, s)
    }

    pub fn forward(self, rec: Record, s: u8) -> Option<u32>
        ensures { result ≡ forward_of 8 (wraps self) rec s }
    {
        rec.forward(8, self.wraps(), s)
    }

    // Whether the code that begins at octet `at` fits the COUNT; what is behind the COUNT's last octet goes to the output then, deciphered if it is to be.
    #[tactic(auto, using(crate::proofs::Octets::rest), unfolding(crate::specs::Keyed::payload))]
    fn take(self, ciphered: bool, input: Input, at: usize, message: &[u8], out: &mut [u8]) -> bool
        requires { at + 5 + length out.old ≡ length message.now }
        ensures fits { result ≡ fits self input.count input.bearer input.direction at message.now }
        ensures read { out.new ≡ cond result (payload self ciphered input.count input.bearer input.direction (drop (at + 5) message.now)) out.old }
    {
        if self.fits(input, at, message) {
            let body = at + 5;
            self.fill(ciphered, input, &message[body..], out);
            return true;
        }
        false
    }

    fn verify_forward(
        self,
        rec: Record,
        ciphered: bool,
        bearer: u8,
        direction: u8,
        at: usize,
        message: &[u8],
        out: &mut [u8],
    ) -> Result<Taken, Missed>
        requires { at + 5 + length out.old ≡ length message.now }
        ensures opening { result ≡ try_forward (λ n. fits self n bearer direction at message.now) (forward_of 8 (wraps self) rec (get_or message.now (at + 4) 0)) }
        ensures read { out.new ≡ read_as (λ n. payload self ciphered n bearer direction (drop (at + 5) message.now)) out.old result }
    {
        let last = message[at + 4];
        let Some(count) = self.forward(rec, last) else {
            return Err(Missed::NoCandidate);
        };
        let input = Input {
            count,
            bearer,
            direction,
        };
        if self.take(ciphered, input, at, message, out) {
            return Ok(Taken::Forward(count));
        }
        Err(Missed::WrongCode)
    }

    // The COUNT that the code at octet `at` fits, the late candidate's tried first; what is behind its last octet goes to the output then, deciphered if it is to be.
    pub fn verify(
        self,
        rec: Record,
        ciphered: bool,
        bearer: u8,
        direction: u8,
        at: usize,
        message: &[u8],
        out: &mut [u8],
    ) -> Result<Taken, Missed>
        requires { at + 5 + length out.old ≡ length message.now }
        ensures opening { result ≡ verify_of self rec bearer direction at message.now }
        ensures read { out.new ≡ read_as (λ n. payload self ciphered n bearer direction (drop (at + 5) message.now)) out.old result }
    {
        let last = message[at + 4];
        match self.late(rec, last) {
            None => self.verify_forward(rec, ciphered, bearer, direction, at, message, out),
            Some(count) => {
                let input = Input {
                    count,
                    bearer,
                    direction,
                };
                if self.take(ciphered, input, at, message, out) {
                    Ok(Taken::Late(count))
                } else {
                    self.verify_forward(rec, ciphered, bearer, direction, at, message, out)
                }
            }
        }
    }

    // The record with the COUNT used forward.
    pub fn advance(self, rec: Record, c: u32) -> Record
        requires { (c < exhausted) × (self.size ≤ 64) × (wraps self ≡ false → rec.next ≤ c) }
        ensures { result ≡ advanced self rec c }
    {
        if self.wraps() {
            return rec.go_round(c);
        }
        rec.advance(self.size, c)
    }
}
