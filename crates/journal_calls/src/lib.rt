// The calls of a journal as values: which call a record's bytes are, and a call's record written.
#![tactic(auto)]

ghost use Rattle.std.specs.Prelude.{◌≡◌, ◌++◌, ◌+◌, ◌≤◌, min, length, get_or, take};
ghost use Rattle.journal.specs.Write.{writes, told_written, write_of};
ghost use Rattle.journal_calls.specs.Fields.{room_at, count_at, key_at, counts_in, counts_of};
ghost use Rattle.journal_calls.specs.Calls.{kind_of, front_of, call_of, rest_of};

use refusals::Refusal;

// A call but for what stands at the end of its bytes: keys and next COUNTs, a message, a value. A place is 0 uplink and 1 downlink of 3GPP access, 2 and 3 of
// non-3GPP access; a connection 0 3GPP, 1 non-3GPP. A host that lends more than 65,535 octets says 65,535.
// kept: places and connections are the octets of a record, and `Places` of specs/Laws, which the theorems back and Replays take, bounds them as numbers
#[derive(Clone, Copy, Debug, PartialEq, Eq)]
pub enum Call {
    // kept: kind 00, for which the theorems back and Replays have a case
    Unknown,
    New { integrity: u8, ciphering: u8 },
    Restore { integrity: u8, ciphering: u8 },
    Reselect { integrity: u8, ciphering: u8 },
    Window(u8),
    Seal { header: u8, place: u8, room: u16 },
    Opaque { header: u8, place: u8, room: u16 },
    Open { place: u8, room: u16, second: u16 },
    EpsSeal(u16),
    EpsOpen(u16),
    N1ToS1,
    VerifyN1ToS1(u8),
    S1ToN1 { ncc: u8, ngksi: u8, room: u16 },
    VerifyS1ToN1,
    Initial { connection: u8, room: u16 },
}

// A room that was lent, as a record has it.
pub fn room_of(lent: usize) -> u16
    ensures { result ≡ min lent 65535 }
{
    lent.min(u16::MAX as usize) as u16
}

// kept: as in crate initial: neither stands on the other, and a crate for this line would be longer than it is.
// An octet that is missing is 0.
fn octet(octets: &[u8], at: usize) -> u8
    ensures { result ≡ get_or octets.now at 0 }
{
    octets.get(at).copied().unwrap_or(0)
}

fn room(octets: &[u8], at: usize) -> u16
    requires { at ≤ 5 }
    ensures { result ≡ room_at octets.now at }
{
    u16::from_be_bytes([octet(octets, at), octet(octets, at + 1)])
}

// The call that a record's bytes begin with.
#[tactic(auto, unfolding(crate::specs::Calls::call_of))]
pub fn call_of(kind: u8, octets: &[u8]) -> Call
    ensures { result ≡ call_of kind octets.now }
{
    let a = octet(octets, 0);
    let b = octet(octets, 1);
    match kind {
        0x01 => Call::New {
            integrity: a,
            ciphering: b,
        },
        0x02 => Call::Restore {
            integrity: a,
            ciphering: b,
        },
        0x03 => Call::Reselect {
            integrity: a,
            ciphering: b,
        },
        0x04 => Call::Window(a),
        0x05 => Call::Seal {
            header: a,
            place: b % 4,
            room: room(octets, 2),
        },
        0x06 => Call::Opaque {
            header: a,
            place: b % 4,
            room: room(octets, 2),
        },
        0x07 => Call::Open {
            place: a % 4,
            room: room(octets, 1),
            second: room(octets, 3),
        },
        0x08 => Call::EpsSeal(room(octets, 0)),
        0x09 => Call::EpsOpen(room(octets, 0)),
        0x0a => Call::N1ToS1,
        0x0b => Call::VerifyN1ToS1(a),
        0x0c => Call::S1ToN1 {
            ncc: a,
            ngksi: b,
            room: room(octets, 2),
        },
        0x0d => Call::VerifyS1ToN1,
        0x0e => Call::Initial {
            connection: a % 2,
            room: room(octets, 1),
        },
        _ => Call::Unknown,
    }
}

impl Call {
    fn kind(self) -> u8
        ensures { result ≡ kind_of self }
    {
        match self {
            Call::Unknown => 0x00,
            Call::New { .. } => 0x01,
            Call::Restore { .. } => 0x02,
            Call::Reselect { .. } => 0x03,
            Call::Window(_) => 0x04,
            Call::Seal { .. } => 0x05,
            Call::Opaque { .. } => 0x06,
            Call::Open { .. } => 0x07,
            Call::EpsSeal(_) => 0x08,
            Call::EpsOpen(_) => 0x09,
            Call::N1ToS1 => 0x0a,
            Call::VerifyN1ToS1(_) => 0x0b,
            Call::S1ToN1 { .. } => 0x0c,
            Call::VerifyS1ToN1 => 0x0d,
            Call::Initial { .. } => 0x0e,
        }
    }

    fn front_length(self) -> usize
        ensures { result ≡ length (front_of self) }
    {
        match self {
            Call::Unknown | Call::N1ToS1 | Call::VerifyS1ToN1 => 0,
            Call::Window(_) | Call::VerifyN1ToS1(_) => 1,
            Call::New { .. } | Call::Restore { .. } | Call::Reselect { .. } => 2,
            Call::EpsSeal(_) | Call::EpsOpen(_) => 2,
            Call::Initial { .. } => 3,
            Call::Seal { .. } | Call::Opaque { .. } | Call::S1ToN1 { .. } => 4,
            Call::Open { .. } => 5,
        }
    }

    // What its bytes begin with, and octets behind that nobody reads.
    fn front(self) -> [u8; 5]
        ensures { take (length (front_of self)) result ≡ front_of self }
    {
        match self {
            Call::Unknown | Call::N1ToS1 | Call::VerifyS1ToN1 => [0; 5],
            Call::Window(a) | Call::VerifyN1ToS1(a) => [a, 0, 0, 0, 0],
            Call::New {
                integrity,
                ciphering,
            }
            | Call::Restore {
                integrity,
                ciphering,
            }
            | Call::Reselect {
                integrity,
                ciphering,
            } => [integrity, ciphering, 0, 0, 0],
            Call::EpsSeal(room) | Call::EpsOpen(room) => {
                let [high, low] = room.to_be_bytes();
                [high, low, 0, 0, 0]
            }
            Call::Initial { connection, room } => {
                let [high, low] = room.to_be_bytes();
                [connection, high, low, 0, 0]
            }
            Call::Seal {
                header: a,
                place: b,
                room,
            }
            | Call::Opaque {
                header: a,
                place: b,
                room,
            }
            | Call::S1ToN1 {
                ncc: a,
                ngksi: b,
                room,
            } => {
                let [high, low] = room.to_be_bytes();
                [a, b, high, low, 0]
            }
            Call::Open {
                place,
                room,
                second,
            } => {
                let [a, b] = room.to_be_bytes();
                let [c, d] = second.to_be_bytes();
                [place, a, b, c, d]
            }
        }
    }
}

// What stands behind: keys and next COUNTs, the message, the value.
#[tactic(auto, unfolding(crate::specs::Calls::rest_of))]
pub fn rest(kind: u8, octets: &[u8]) -> &[u8]
    ensures { result.now ≡ rest_of kind octets.now }
{
    octets
        .get(call_of(kind, octets).front_length()..)
        .unwrap_or(&[])
}

// A key that is not whole is 0.
#[tactic(auto, unfolding(crate::specs::Fields::key_at))]
fn key(octets: &[u8], at: usize) -> [u8; 16]
    requires { at ≤ 16 }
    ensures { result ≡ key_at octets.now at }
{
    let mut key = [0; 16];
    if let Some(whole) = octets.get(at..at + 16) {
        key.copy_from_slice(whole);
    }
    key
}

// The keys behind the codes of a creation, restore or reselection.
// kept: two functions for two places, since neither may ask anything of a host that reads a journal.
pub fn integrity_key(octets: &[u8]) -> [u8; 16]
    ensures { result ≡ key_at octets.now 0 }
{
    key(octets, 0)
}

pub fn ciphering_key(octets: &[u8]) -> [u8; 16]
    ensures { result ≡ key_at octets.now 16 }
{
    key(octets, 16)
}

fn count(octets: &[u8], at: usize) -> u32
    requires { at ≤ 44 }
    ensures { result ≡ count_at octets.now at }
{
    u32::from_be_bytes([
        octet(octets, at),
        octet(octets, at + 1),
        octet(octets, at + 2),
        octet(octets, at + 3),
    ])
}

// The next COUNTs of a restore, behind the keys.
#[tactic(auto, unfolding(crate::specs::Fields::counts_in))]
pub fn counts(octets: &[u8]) -> [u32; 4]
    ensures { result ≡ counts_in octets.now }
{
    [
        count(octets, 32),
        count(octets, 36),
        count(octets, 40),
        count(octets, 44),
    ]
}

// Writes the record of a call to the front of an output; `rest` is what stands behind its front. It answers as `journal::write` does.
pub fn write(call: Call, rest: &[u8], out: &mut [u8]) -> Result<usize, Refusal>
    ensures { writes (told_written result) out.new ≡ write_of (kind_of call) (front_of call ++ rest.now) out.old }
{
    let front = call.front();
    journal::write(call.kind(), &front[..call.front_length()], rest, out)
}

// One behind the other.
fn joined<const A: usize, const B: usize, const N: usize>(a: [u8; A], b: [u8; B]) -> [u8; N]
    requires { A + B ≡ N }
    ensures { result ≡ a.entry ++ b.entry }
{
    let mut out = [0; N];
    journal::put_bytes(&a, &b, &mut out);
    out
}

// What stands behind the codes of a creation or reselection.
pub fn keys(integrity_key: [u8; 16], ciphering_key: [u8; 16]) -> [u8; 32]
    ensures { result ≡ integrity_key ++ ciphering_key }
{
    joined(integrity_key, ciphering_key)
}

#[tactic(auto, unfolding(crate::specs::Fields::counts_of))]
fn counts_of(next: [u32; 4]) -> [u8; 16]
    ensures { result ≡ counts_of next }
{
    let [a, b, c, d] = next;
    let front: [u8; 8] = joined(a.to_be_bytes(), b.to_be_bytes());
    let behind: [u8; 8] = joined(c.to_be_bytes(), d.to_be_bytes());
    joined(front, behind)
}

// What stands behind the codes of a restore.
pub fn state(integrity_key: [u8; 16], ciphering_key: [u8; 16], next: [u32; 4]) -> [u8; 48]
    ensures { result ≡ integrity_key ++ (ciphering_key ++ counts_of next) }
{
    let behind: [u8; 32] = joined(ciphering_key, counts_of(next));
    joined(integrity_key, behind)
}
