// Initial messages and their NAS message container: the walk over optional parts, the cleartext message, the container's place. No key, no COUNT.
#![tactic(auto)]

ghost use Rattle.std.specs.Prelude.{◌≡◌, ◌+◌, ◌≤◌, ◌<◌, length, get_or, IfOk, IfSome};
ghost use Rattle.initial.specs.Parts.{format_of, head_of, number, value_length, part_length};
ghost use Rattle.initial.specs.Walk.{walk_from, container_in, container_of};
ghost use Rattle.initial.specs.Messages.{is_initial, mandatory_length};
ghost use Rattle.initial.specs.Outer.{is_hideable, hides, outer_length, front_of};
ghost use Rattle.initial.specs.Inside.{is_asked, is_inside};

const CONTAINER: u8 = 0x71;

// How a part is framed, by its identifier alone.
#[derive(Clone, Copy, Debug, PartialEq, Eq)]
pub enum Format {
    // Types 1 and 2: one octet, no value.
    Single,
    // Type 4: one length octet.
    Tlv,
    // Type 6: two length octets.
    Tlve,
}

// Where in a message the value of its NAS message container lies: at which octet it starts, and how many it has.
#[derive(Clone, Copy, Debug, PartialEq, Eq)]
pub struct Span {
    pub start: usize,
    pub length: usize,
}

// The walk over a message's parts fails: the mandatory part is not all there, or a part runs past the message.
#[derive(Clone, Copy, Debug, PartialEq, Eq)]
pub struct Unwalkable;

#[tactic(auto, unfolding(crate::specs::Parts::format_of))]
fn format_of(identifier: u8) -> Format
    ensures { result ≡ format_of identifier }
{
    match identifier {
        0x80..=0xff => Format::Single,
        0x70..=0x7f => Format::Tlve,
        _ => Format::Tlv,
    }
}

fn head_of(format: Format) -> usize
    ensures { (result ≡ head_of format) × (result ≤ 3) }
{
    match format {
        Format::Single => 1,
        Format::Tlv => 2,
        Format::Tlve => 3,
    }
}

// An octet of a message, and 0 behind its last one.
fn octet(octets: &[u8], at: usize) -> u8
    ensures { result ≡ get_or octets.now at 0 }
{
    octets.get(at).copied().unwrap_or(0)
}

fn number(high: u8, low: u8) -> usize
    ensures { (result ≡ number high low) × (result < 65536) }
{
    usize::from(u16::from_be_bytes([high, low]))
}

#[tactic(auto, unfolding(crate::specs::Parts::value_length))]
fn value_length(octets: &[u8]) -> usize
    ensures { (result ≡ value_length octets.now) × (result < 65536) }
{
    match format_of(octet(octets, 0)) {
        Format::Single => 0,
        Format::Tlv => number(0, octet(octets, 1)),
        Format::Tlve => number(octet(octets, 1), octet(octets, 2)),
    }
}

#[tactic(auto, unfolding(crate::specs::Parts::part_length, crate::specs::Parts::head_length))]
fn part_length(octets: &[u8]) -> usize
    ensures { (result ≡ part_length octets.now) × (result < 65539) }
{
    head_of(format_of(octet(octets, 0))) + value_length(octets)
}

#[tactic(auto, unfolding(crate::specs::Messages::mandatory_length))]
pub fn mandatory_length(message: &[u8]) -> usize
    ensures { (result ≡ mandatory_length message.now) × (result < 65542) }
{
    6 + number(octet(message, 4), octet(message, 5))
}

// The walk from an octet on goes to the last octet, also past the container. The first container counts.
#[tactic(auto, using(crate::proofs::Walks::walk_steps), unfolding(crate::specs::Parts::part_length))]
fn walk(message: &[u8], from: usize) -> Result<Option<Span>, Unwalkable>
    requires { from ≤ length message.now }
    ensures { result ≡ container_in (walk_from message.now (length message.now) from) }
{
    let mut at = from;
    let mut found = None;
    // kept: the octets of each part say where the next one begins, so that no iterator of std goes over them
    while at < message.len() {
        let rest = &message[at..];
        let size = part_length(rest);
        if rest.len() < size {
            return Err(Unwalkable);
        }
        let length = value_length(rest);
        let end = at + size;
        let value = Span {
            start: end - length,
            length,
        };
        found = found.or((rest[0] == CONTAINER).then_some(value));
        at = end;
    }
    Ok(found)
}

#[tactic(auto, unfolding(crate::specs::Walk::container_of, crate::specs::Walk::walk_of, crate::specs::Messages::is_whole))]
pub fn find_container(message: &[u8]) -> Result<Option<Span>, Unwalkable>
    ensures found { result ≡ container_of message.now }
    ensures within { IfOk result (λ o. IfSome o (λ s. s.start + s.length ≤ length message.now)) }
{
    let from = mandatory_length(message);
    if message.len() < from {
        return Err(Unwalkable);
    }
    walk(message, from)
}

// Refusal 9 of a message to be sealed is that it is none.
#[tactic(auto, unfolding(crate::specs::Messages::is_initial))]
pub fn is_initial(message: &[u8]) -> bool
    ensures { result ≡ is_initial message.now }
{
    look::is_of(0x4c, message) || look::is_of(0x45, message)
}

// Refusal 18 of a message to be sealed is that it is not so.
#[tactic(auto, unfolding(crate::specs::Outer::is_hideable))]
pub fn is_hideable(message: &[u8]) -> bool
    ensures { result ≡ is_hideable message.now }
{
    matches!(find_container(message), Ok(None))
}

#[tactic(auto, unfolding(crate::specs::Outer::hides))]
pub fn hides(message: &[u8]) -> bool
    ensures { result ≡ hides message.now }
{
    mandatory_length(message) < message.len()
}

// The length of the message that goes out.
#[tactic(auto, unfolding(crate::specs::Outer::outer_length))]
pub fn outer_length(message: &[u8]) -> usize
    requires { length message.now ≤ 65535 }
    ensures { result ≡ outer_length message.now }
{
    if hides(message) {
        mandatory_length(message) + 3 + message.len()
    } else {
        message.len()
    }
}

// What stands before the container's value in it.
#[tactic(auto, unfolding(crate::specs::Outer::front_of))]
pub fn put_front(message: &[u8], out: &mut [u8])
    requires { (mandatory_length message.now ≤ length message.now) × (length message.now ≤ 65535) × (length out.old ≡ mandatory_length message.now + 3) }
    ensures { out.new ≡ front_of message.now (length message.now) }
{
    let n = mandatory_length(message);
    let [high, low] = (message.len() as u16).to_be_bytes();
    out[..n].copy_from_slice(&message[..n]);
    out[n..].copy_from_slice(&[CONTAINER, high, low]);
}

// Whether the container of an opened message is asked for.
// kept: header type and direction are numbers: the contract of `is_asked` gives an answer for each.
#[tactic(auto, unfolding(crate::specs::Inside::is_asked))]
pub fn is_asked(header_type: u8, direction: u8, message: &[u8]) -> bool
    ensures { result ≡ is_asked header_type direction message.now }
{
    header_type == 1 && direction == 0 && is_initial(message)
}

// Whether the container's message is one of the outer type that passes the look.
#[tactic(auto, unfolding(crate::specs::Inside::is_inside))]
pub fn is_inside(outer: &[u8], inner: &[u8]) -> bool
    ensures { result ≡ is_inside outer.now inner.now }
{
    look::is_of(octet(outer, 2), inner) && look::look(1, 0, inner).is_ok()
}
