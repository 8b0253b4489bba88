// An EPS hex line parsed to one value: the call that it is, in numbers, with keys, next COUNTs and octets beside it.
#![tactic(auto)]

ghost use Rattle.std.specs.Prelude.{◌≡◌, length};
ghost use Rattle.hex_eps_parse.specs.Lines.{line_of, octets_in};

mod heads;

use hex_parse::Parsed;

// The calls, each with the numbers of its line. A direction is 0 or 1.
// kept: `Bad`, as hex_parse's `Call` has it, since one `ended` serves both lines; and the direction, which is the line's digit as in hex_parse's `Call`.
#[derive(Clone, Copy)]
pub enum Call {
    Bad,
    New {
        integrity: u8,
        ciphering: u8,
    },
    Restore {
        integrity: u8,
        ciphering: u8,
    },
    Reselect {
        integrity: u8,
        ciphering: u8,
    },
    Window(u8),
    Seal {
        header: u8,
        direction: u8,
    },
    Request(u8),
    Open(u8),
    Raw {
        integrity: u8,
        ciphering: u8,
        size: u8,
    },
    Show,
}

// It has no second output.
pub type Line = Parsed<Call, 2>;

// The line that a text is. Its octets come to the front of `held`.
pub fn parse(text: &[u8], held: &mut [u8]) -> Line
    ensures { (result ≡ line_of text.now (length held.old)) × (held.new ≡ octets_in text.now held.old) }
{
    hex_parse::ended(heads::head(text), heads::bad(), text, held)
}
