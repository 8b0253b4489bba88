// The look at the inner message: what document 01 takes for a known 5GS message, its header type and its direction.
#![tactic(auto)]

ghost use Rattle.std.specs.Prelude.{◌≡◌};
ghost use Rattle.refusals.specs.Numbers.{refused};
ghost use Rattle.look.specs.Types.{way_of};
ghost use Rattle.look.specs.Look.{is_mobility, is_session, is_of, way_in, not_known, not_together, wrong_way, look_of};

use refusals::Refusal;

// The direction that a message requires.
#[derive(Clone, Copy, Debug, PartialEq, Eq)]
pub enum Way {
    Uplink,
    Downlink,
    Either,
}

// By the type of a 5GMM message (TS 24.501 Table 9.7.1).
#[tactic(auto, unfolding(crate::specs::Types::way_of))]
fn way_of(message_type: u8) -> Option<Way>
    ensures { result ≡ way_of message_type }
{
    match message_type {
        0x41
        | 0x43
        | 0x45
        | 0x48
        | 0x4c
        | 0x4f
        | 0x51
        | 0x55
        | 0x57
        | 0x59
        | 0x5c
        | 0x5e..=0x5f
        | 0x66..=0x67
        | 0x69
        | 0x6d => Some(Way::Uplink),
        0x42
        | 0x44
        | 0x46..=0x47
        | 0x4d..=0x4e
        | 0x50
        | 0x52
        | 0x54
        | 0x56
        | 0x58
        | 0x5a..=0x5b
        | 0x5d
        | 0x65
        | 0x68
        | 0x6a..=0x6c => Some(Way::Downlink),
        0x64 => Some(Way::Either),
        _ => None,
    }
}

#[tactic(auto, unfolding(crate::specs::Look::is_mobility))]
fn is_mobility(octets: &[u8]) -> bool
    ensures { result ≡ is_mobility octets.now }
{
    octets.len() >= 3 && octets[0] == 0x7e && octets[1] % 16 == 0
}

#[tactic(auto, unfolding(crate::specs::Look::is_session))]
fn is_session(octets: &[u8]) -> bool
    ensures { result ≡ is_session octets.now }
{
    octets.len() >= 4 && octets[0] == 0x2e
}

#[tactic(auto, unfolding(crate::specs::Look::is_of, crate::specs::Look::is_mobility))]
pub fn is_of(message_type: u8, octets: &[u8]) -> bool
    ensures { result ≡ is_of message_type octets.now }
{
    is_mobility(octets) && octets[2] == message_type
}

#[tactic(auto, unfolding(crate::specs::Look::way_in, crate::specs::Look::is_mobility))]
fn way_in(octets: &[u8]) -> Option<Way>
    ensures { result ≡ way_in octets.now }
{
    if is_mobility(octets) {
        way_of(octets[2])
    } else if is_session(octets) {
        Some(Way::Either)
    } else {
        None
    }
}

#[tactic(auto, unfolding(crate::specs::Look::not_known))]
pub fn not_known(octets: &[u8]) -> bool
    ensures { result ≡ not_known octets.now }
{
    way_in(octets).is_none()
}

// kept: header types and directions are numbers in `not_together`, `wrong_way` and `look`: their contracts give an answer for each number, 3 and 4 or 0 and 1 or not.
#[tactic(auto, unfolding(crate::specs::Look::not_together, crate::specs::Look::alone))]
pub fn not_together(header_type: u8, octets: &[u8]) -> bool
    ensures { result ≡ not_together header_type octets.now }
{
    (header_type == 3) != is_of(0x5d, octets) || (header_type == 4) != is_of(0x5e, octets)
}

#[tactic(auto, unfolding(crate::specs::Look::wrong_way))]
pub fn wrong_way(direction: u8, octets: &[u8]) -> bool
    ensures { result ≡ wrong_way direction octets.now }
{
    match way_in(octets) {
        Some(Way::Uplink) => direction != 0,
        Some(Way::Downlink) => direction != 1,
        Some(Way::Either) | None => false,
    }
}

#[tactic(auto, unfolding(crate::specs::Look::look_of))]
pub fn look(header_type: u8, direction: u8, octets: &[u8]) -> Result<(), Refusal>
    ensures { refused result ≡ look_of header_type direction octets.now }
{
    if not_known(octets) {
        return Err(Refusal::NotKnown);
    }
    if not_together(header_type, octets) {
        return Err(Refusal::NotTogether);
    }
    if wrong_way(direction, octets) {
        return Err(Refusal::WrongWay);
    }
    Ok(())
}
