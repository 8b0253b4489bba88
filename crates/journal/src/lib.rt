// A journal of calls: which octets are a record, one record written, and what stands at the front of a window of a journal that is read by pieces.
#![tactic(auto)]

ghost use Rattle.std.specs.Prelude.{◌≡◌, ◌++◌, ◌+◌, ◌≤◌, ◌<◌, Some, None, cond, length, get_or, drop};
ghost use Rattle.journal.specs.declared.Step.TheVariants.{Call};
ghost use Rattle.refusals.specs.Numbers.{refused};
ghost use Rattle.journal.specs.Records.{is_allowed, size_at, well_formed, head_of, record_of};
ghost use Rattle.journal.specs.Write.{writes, told_written, refusal_of, write_of};
ghost use Rattle.journal.specs.Window.{step_of};

use refusals::Refusal;

// The most bytes of a call, and the octets of a record before them.
const MOST: usize = 60000;

const HEAD: usize = 5;

// At the front of a window: a call of a kind with n bytes, from its sixth octet on; no record, so that one octet is passed over; more octets are needed;
// nothing is left.
#[derive(Clone, Copy, Debug, PartialEq, Eq)]
pub enum Step {
    // kept: a kind is any octet, since `saihdelu_journal` is given one and `write` says which are refused
    Call { kind: u8, n: usize },
    Pass,
    More,
    End,
}

// Whether a kind is known and has calls of n bytes.
#[tactic(auto, using(crate::proofs::Known::unknown), unfolding(crate::specs::Records::is_allowed))]
pub fn is_allowed(kind: u8, n: usize) -> bool
    ensures { result ≡ is_allowed kind n }
{
    match kind {
        0x01 | 0x03 => n == 34,
        0x02 => n == 50,
        0x04 | 0x0b => n == 1,
        0x05 | 0x06 => 4 <= n,
        0x07 => 5 <= n,
        0x08 | 0x09 => 2 <= n,
        0x0a => n == 0,
        0x0c => n == 4,
        0x0d => true,
        0x0e => 3 <= n,
        _ => false,
    }
}

// The call of the record that stands at the front, whole, if one does.
#[tactic(auto, unfolding(crate::specs::Records::well_formed, crate::specs::Records::size_at))]
fn call_at(octets: &[u8]) -> Option<Step>
    ensures { result ≡ cond (well_formed octets.now) (Some (Call (get_or octets.now 2 0) (size_at octets.now))) None }
{
    let [0x4e, 0x53, kind, high, low, bytes @ ..] = octets else {
        return None;
    };
    let n = u16::from_be_bytes([*high, *low]) as usize;
    if is_allowed(*kind, n) && n <= MOST && n <= bytes.len() {
        Some(Step::Call { kind: *kind, n })
    } else {
        None
    }
}

// Whether a record stands at the front, whole.
pub fn is_well_formed(octets: &[u8]) -> bool
    ensures { result ≡ well_formed octets.now }
{
    call_at(octets).is_some()
}

// What stands at the front of a window, behind which there is nothing more if the input has ended.
#[tactic(auto, unfolding(crate::specs::Window::step_of))]
pub fn step_of(window: &[u8], is_end: bool) -> Step
    ensures { result ≡ step_of window.now is_end }
{
    if let Some(call) = call_at(window) {
        return call;
    }
    if is_end && window.is_empty() {
        Step::End
    } else if is_end || HEAD + MOST <= window.len() {
        Step::Pass
    } else {
        Step::More
    }
}

// The refusal of n bytes of call where so many octets are lent: too short here is a length that the kind does not allow, and no such kind.
#[tactic(auto, unfolding(crate::specs::Write::refusal_of))]
fn check(kind: u8, n: usize, room: usize) -> Result<(), Refusal>
    ensures { refused result ≡ refusal_of kind n room }
{
    if !is_allowed(kind, n) {
        return Err(Refusal::WrongLength);
    }
    if MOST < n {
        return Err(Refusal::TooLong);
    }
    if room < HEAD + n {
        return Err(Refusal::NoRoom);
    }
    Ok(())
}

pub fn put_bytes(front: &[u8], rest: &[u8], out: &mut [u8])
    requires { length out.old ≡ length front.now + length rest.now }
    ensures { out.new ≡ front.now ++ rest.now }
{
    let (first, second) = out.split_at_mut(front.len());
    first.copy_from_slice(front);
    second.copy_from_slice(rest);
}

#[tactic(auto, unfolding(crate::specs::Records::record_of, crate::specs::Records::head_of))]
fn put_record(kind: u8, front: &[u8], rest: &[u8], out: &mut [u8])
    requires { (length front.now + length rest.now ≤ 60000) × (length out.old ≡ 5 + (length front.now + length rest.now)) }
    ensures { out.new ≡ record_of kind (front.now ++ rest.now) }
{
    let [high, low] = ((front.len() + rest.len()) as u16).to_be_bytes();
    let (head, bytes) = out.split_at_mut(HEAD);
    head.copy_from_slice(&[0x4e, 0x53, kind, high, low]);
    put_bytes(front, rest, bytes);
}

// Writes the record of a call whose bytes are those of `front`, then those of `rest`, to the front of an output.
#[tactic(auto, unfolding(crate::specs::Write::write_of, crate::specs::Write::refusal_of))]
pub fn write(kind: u8, front: &[u8], rest: &[u8], out: &mut [u8]) -> Result<usize, Refusal>
    ensures { writes (told_written result) out.new ≡ write_of kind (front.now ++ rest.now) out.old }
{
    let n = front.len() + rest.len();
    check(kind, n, out.len())?;
    let end = HEAD + n;
    put_record(kind, front, rest, &mut out[..end]);
    Ok(end)
}
