// A hex line parsed to one value: the call that it is, in numbers, with keys, next COUNTs and octets beside it.
#![tactic(auto)]

ghost use Rattle.std.specs.Prelude.{◌≡◌, ◌≤◌, Some, length};
ghost use Rattle.hex_lines.specs.Line.{written};
ghost use Rattle.hex_parse.specs.Parsed.{plain, headed, selected_at, counted, is_none, with_octets, ended_of, held_of};
ghost use Rattle.hex_parse.specs.Lines.{line_of, octets_in};

pub mod form;
mod heads;

use hex_lines::NotDecoded;

// The calls, each with the numbers of its line. A direction is 0 or 1, a connection 1 or 2.
// kept: `Bad` and the numbers, since journal_replay's theorems speak of both (journal_lines' `line_for` and `place_of`).
#[derive(Clone, Copy)]
pub enum Call {
    Bad,
    New {
        integrity: u8,
        ciphering: u8,
    },
    Restore {
        integrity: u8,
        ciphering: u8,
    },
    Reselect {
        integrity: u8,
        ciphering: u8,
    },
    Window(u8),
    Seal {
        header: u8,
        direction: u8,
        connection: u8,
    },
    Opaque {
        header: u8,
        direction: u8,
        connection: u8,
    },
    Initial(u8),
    Open {
        direction: u8,
        connection: u8,
    },
    EpsSeal,
    EpsOpen,
    N1ToS1,
    VerifyN1ToS1(u8),
    S1ToN1 {
        ncc: u8,
        ngksi: u8,
    },
    VerifyS1ToN1,
    Raw {
        integrity: u8,
        ciphering: u8,
        size: u8,
    },
    Show,
    // either connection
    Across {
        direction: u8,
        connection: u8,
    },
    // on the slot's context where it lies
    WindowIn(u8),
    SealIn {
        header: u8,
        direction: u8,
        connection: u8,
    },
    OpenIn {
        direction: u8,
        connection: u8,
    },
}

// A line: a call on a slot, and what stands beside it. C is the call, N how many records its context has.
#[derive(Clone, Copy)]
pub struct Parsed<C, const N: usize> {
    pub slot: usize,
    pub call: C,
    pub integrity_key: [u8; 16],
    pub ciphering_key: [u8; 16],
    pub next: [u32; N],
    pub bits: [u64; N],
    // how many octets of output are lent
    pub room: usize,
    // how many octets of second output are lent
    pub second: usize,
    // where the octets begin in the text; none for a line without
    pub from: Option<usize>,
    // how many octets stand at the front of what was lent for them; none: there are more than was lent
    pub octets: Option<usize>,
}

pub type Line = Parsed<Call, 4>;

impl<C, const N: usize> Parsed<C, N> {
    // A call on a slot, with nothing beside it.
    pub fn plain(slot: usize, call: C) -> Parsed<C, N>
        ensures { result ≡ plain slot call }
    {
        Parsed {
            slot,
            call,
            integrity_key: [0; 16],
            ciphering_key: [0; 16],
            next: [0; N],
            bits: [0; N],
            room: 0,
            second: 0,
            from: None,
            octets: Some(0),
        }
    }

    // One with room for output, and octets from a place on.
    pub fn headed(slot: usize, call: C, room: usize, from: usize) -> Parsed<C, N>
        ensures { result ≡ headed slot call room (Some from) }
    {
        Parsed {
            room,
            from: Some(from),
            ..Parsed::plain(slot, call)
        }
    }

    // One with two keys: its slot stands at a place, then two octets, then they.
    pub fn selected(text: &[u8], at: usize, call: C) -> Parsed<C, N>
        requires { at ≤ 16 }
        ensures { result ≡ selected_at text.now at call }
    {
        Parsed {
            integrity_key: form::key(text, at + 8),
            ciphering_key: form::key(text, at + 41),
            ..Parsed::plain(form::slot(text, at), call)
        }
    }
}

impl<C: Copy, const N: usize> Parsed<C, N> {
    // With the octets that were read of its text, or `bad` where they are none.
    fn counted(self, bad: Parsed<C, N>, decoded: Result<usize, NotDecoded>) -> Parsed<C, N>
        ensures { result ≡ counted bad self decoded }
    {
        match decoded {
            Ok(n) => Parsed {
                octets: Some(n),
                ..self
            },
            Err(NotDecoded::Long) => Parsed {
                octets: None,
                ..self
            },
            Err(NotDecoded::Bad) => bad,
        }
    }
}

// Whether a text is `-`.
pub fn is_none(text: &[u8]) -> bool
    ensures { result ≡ is_none text.now }
{
    text.len() == 1 && text[0] == b'-'
}

fn with_octets<C: Copy, const N: usize>(
    line: Parsed<C, N>,
    bad: Parsed<C, N>,
    text: &[u8],
    held: &mut [u8],
) -> Parsed<C, N>
    ensures { (result ≡ with_octets bad line text.now (length held.old)) × (held.new ≡ written text.now held.old) }
{
    if text.len() == 0 {
        return bad;
    }
    if is_none(text) {
        return line;
    }
    let decoded = hex_lines::decode(text, held);
    line.counted(bad, decoded)
}

// The line that a text is, where it is `line` up to its octets, and `bad` where they are none. They come to the front of `held`.
pub fn ended<C: Copy, const N: usize>(
    line: Parsed<C, N>,
    bad: Parsed<C, N>,
    text: &[u8],
    held: &mut [u8],
) -> Parsed<C, N>
    ensures { (result ≡ ended_of bad line text.now (length held.old)) × (held.new ≡ held_of line text.now held.old) }
{
    match line.from {
        None => line,
        Some(from) => with_octets(line, bad, hex_lines::after(text, from), held),
    }
}

// The line that a text is. Its octets come to the front of `held`.
pub fn parse(text: &[u8], held: &mut [u8]) -> Line
    ensures { (result ≡ line_of text.now (length held.old)) × (held.new ≡ octets_in text.now held.old) }
{
    ended(heads::head(text), heads::bad(), text, held)
}
