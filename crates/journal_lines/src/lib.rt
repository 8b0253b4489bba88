// Hex lines and the calls of a journal: the record of a line written, the line that a record's bytes are.
#![tactic(auto)]

ghost use Rattle.std.specs.Prelude.{◌≡◌};
ghost use Rattle.refusals.specs.Numbers.{number_of};
ghost use Rattle.journal.specs.Write.{writes, told_written};
ghost use Rattle.journal_lines.specs.Lines.{place_of, access_of, entry_of, long_number, written_of, keyed, headed, line_for, line_of};

use hex_parse::{Call, Line};
use journal_calls::Call as Entry;
use refusals::Refusal;

// A line's direction is 0 or 1, its connection 1 or 2.
#[tactic(auto, unfolding(crate::specs::Lines::place_of))]
fn place_of(direction: u8, connection: u8) -> u8
    ensures { result ≡ place_of direction connection }
{
    match (direction, connection) {
        (0, 1) => 0,
        (_, 1) => 1,
        (0, _) => 2,
        _ => 3,
    }
}

#[tactic(auto, unfolding(crate::specs::Lines::access_of))]
fn access_of(connection: u8) -> u8
    ensures { result ≡ access_of connection }
{
    u8::from(connection != 1)
}

fn entry_of(call: Call, room: u16, second: u16) -> Entry
    ensures { result ≡ entry_of call room second }
{
    match call {
        Call::New {
            integrity,
            ciphering,
        } => Entry::New {
            integrity,
            ciphering,
        },
        Call::Restore {
            integrity,
            ciphering,
        } => Entry::Restore {
            integrity,
            ciphering,
        },
        Call::Reselect {
            integrity,
            ciphering,
        } => Entry::Reselect {
            integrity,
            ciphering,
        },
        Call::Window(size) => Entry::Window(size),
        Call::Seal {
            header,
            direction,
            connection,
        } => Entry::Seal {
            header,
            place: place_of(direction, connection),
            room,
        },
        Call::Opaque {
            header,
            direction,
            connection,
        } => Entry::Opaque {
            header,
            place: place_of(direction, connection),
            room,
        },
        Call::Initial(connection) => Entry::Initial {
            connection: access_of(connection),
            room,
        },
        Call::Open {
            direction,
            connection,
        } => Entry::Open {
            place: place_of(direction, connection),
            room,
            second,
        },
        Call::EpsSeal => Entry::EpsSeal(room),
        Call::EpsOpen => Entry::EpsOpen(room),
        Call::N1ToS1 => Entry::N1ToS1,
        Call::VerifyN1ToS1(octet) => Entry::VerifyN1ToS1(octet),
        Call::S1ToN1 { ncc, ngksi } => Entry::S1ToN1 { ncc, ngksi, room },
        Call::VerifyS1ToN1 => Entry::VerifyS1ToN1,
        Call::Bad | Call::Show | Call::Raw { .. } | Call::Across { .. } => Entry::Unknown,
        Call::WindowIn(_) | Call::SealIn { .. } | Call::OpenIn { .. } => Entry::Unknown,
    }
}

// Why a line with more octets than are held is refused: it is too long or, where it is no call of a journal, that.
fn long_refusal(entry: Entry) -> Refusal
    ensures { number_of result ≡ long_number entry }
{
    match entry {
        Entry::Unknown => Refusal::WrongLength,
        _ => Refusal::TooLong,
    }
}

// Writes the record of a line's call, with the line's octets, to the front of an output. A line that is no call is refused with 1.
#[tactic(auto, unfolding(crate::specs::Lines::written_of, crate::specs::Lines::bytes_of, crate::specs::Lines::entry_in))]
pub fn write(line: Line, octets: &[u8], out: &mut [u8]) -> Result<usize, Refusal>
    ensures { writes (told_written result) out.new ≡ written_of line octets.now out.old }
{
    if line.octets.is_none() {
        return Err(long_refusal(entry_of(line.call, 0, 0)));
    }
    let room = journal_calls::room_of(line.room);
    let entry = entry_of(line.call, room, journal_calls::room_of(line.second));
    match entry {
        Entry::New { .. } | Entry::Reselect { .. } => {
            let keys = journal_calls::keys(line.integrity_key, line.ciphering_key);
            journal_calls::write(entry, &keys, out)
        }
        Entry::Restore { .. } => {
            let state = journal_calls::state(line.integrity_key, line.ciphering_key, line.next);
            journal_calls::write(entry, &state, out)
        }
        _ => journal_calls::write(entry, octets, out),
    }
}

fn keyed(call: Call, next: [u32; 4], rest: &[u8]) -> Line
    ensures { result ≡ keyed call next rest.now }
{
    Line {
        integrity_key: journal_calls::integrity_key(rest),
        ciphering_key: journal_calls::ciphering_key(rest),
        next,
        ..Line::plain(0, call)
    }
}

fn headed(call: Call, room: u16, second: u16, rest: &[u8]) -> Line
    ensures { result ≡ headed call room second rest.now }
{
    Line {
        room: room as usize,
        second: second as usize,
        octets: Some(rest.len()),
        ..Line::plain(0, call)
    }
}

fn line_for(entry: Entry, rest: &[u8]) -> Line
    ensures { result ≡ line_for entry rest.now }
{
    match entry {
        Entry::Unknown => headed(Call::Bad, 0, 0, rest),
        Entry::New {
            integrity,
            ciphering,
        } => keyed(
            Call::New {
                integrity,
                ciphering,
            },
            [0; 4],
            rest,
        ),
        Entry::Restore {
            integrity,
            ciphering,
        } => keyed(
            Call::Restore {
                integrity,
                ciphering,
            },
            journal_calls::counts(rest),
            rest,
        ),
        Entry::Reselect {
            integrity,
            ciphering,
        } => keyed(
            Call::Reselect {
                integrity,
                ciphering,
            },
            [0; 4],
            rest,
        ),
        Entry::Window(size) => headed(Call::Window(size), 0, 0, rest),
        Entry::Seal {
            header,
            place,
            room,
        } => headed(
            Call::Seal {
                header,
                direction: place % 2,
                connection: place / 2 + 1,
            },
            room,
            0,
            rest,
        ),
        Entry::Opaque {
            header,
            place,
            room,
        } => headed(
            Call::Opaque {
                header,
                direction: place % 2,
                connection: place / 2 + 1,
            },
            room,
            0,
            rest,
        ),
        Entry::Open {
            place,
            room,
            second,
        } => headed(
            Call::Open {
                direction: place % 2,
                connection: place / 2 + 1,
            },
            room,
            second,
            rest,
        ),
        Entry::EpsSeal(room) => headed(Call::EpsSeal, room, 0, rest),
        Entry::EpsOpen(room) => headed(Call::EpsOpen, room, 0, rest),
        Entry::N1ToS1 => headed(Call::N1ToS1, 0, 0, rest),
        Entry::VerifyN1ToS1(octet) => headed(Call::VerifyN1ToS1(octet), 0, 0, rest),
        Entry::S1ToN1 { ncc, ngksi, room } => { headed(Call::S1ToN1 { ncc, ngksi }, room, 0, rest) }
        Entry::VerifyS1ToN1 => headed(Call::VerifyS1ToN1, 0, 0, rest),
        Entry::Initial { connection, room } => {
            headed(Call::Initial(connection % 2 + 1), room, 0, rest)
        }
    }
}

// The line that a record's bytes are. Its octets are what `journal_calls::rest` shows of them.
#[tactic(auto, unfolding(crate::specs::Lines::line_of))]
pub fn line_of(kind: u8, octets: &[u8]) -> Line
    ensures { result ≡ line_of kind octets.now }
{
    line_for(
        journal_calls::call_of(kind, octets),
        journal_calls::rest(kind, octets),
    )
}
