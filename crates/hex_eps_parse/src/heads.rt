// The forms, and what each line is up to its octets: X is any digit, S a slot, D a direction.
ghost use Rattle.std.specs.Prelude.{◌≡◌};
ghost use Rattle.hex_eps_parse.specs.Lines.{bad, restore_line, raw_line, change_line, state_line, head_of};

use crate::{Call, Line};
use hex_parse::form;

pub fn bad() -> Line
    ensures { result ≡ bad }
{
    Line::plain(0, Call::Bad)
}

// A context stored or put together by hand, and shown.
fn state(text: &[u8]) -> Line
    ensures { result ≡ state_line text.now bad }
{
    if form::fits(
        b"erestore S XX XX XXXXXXXXXXXXXXXXXXXXXXXXXXXXXXXX XXXXXXXXXXXXXXXXXXXXXXXXXXXXXXXX XXXXXXXX XXXXXXXX",
        text,
    ) {
        return restore(text);
    }
    if form::fits(
        b"eraw S XX XX XXXXXXXXXXXXXXXXXXXXXXXXXXXXXXXX XXXXXXXXXXXXXXXXXXXXXXXXXXXXXXXX XX XXXXXXXX XXXXXXXXXXXXXXXX XXXXXXXX XXXXXXXXXXXXXXXX",
        text,
    ) {
        return raw(text);
    }
    if form::fits(b"eshow S", text) {
        return Line::plain(form::slot(text, 6), Call::Show);
    }
    bad()
}

fn restore(text: &[u8]) -> Line
    ensures { result ≡ restore_line text.now }
{
    let call = Call::Restore {
        integrity: form::octet(text, 11),
        ciphering: form::octet(text, 14),
    };
    let next = [form::count(text, 83), form::count(text, 92)];
    Line {
        next,
        ..Line::selected(text, 9, call)
    }
}

fn raw(text: &[u8]) -> Line
    ensures { result ≡ raw_line text.now }
{
    let call = Call::Raw {
        integrity: form::octet(text, 7),
        ciphering: form::octet(text, 10),
        size: form::octet(text, 79),
    };
    let next = [form::count(text, 82), form::count(text, 108)];
    let bits = [form::bits(text, 91), form::bits(text, 117)];
    Line {
        next,
        bits,
        ..Line::selected(text, 5, call)
    }
}

// Creation, reselection, window size.
fn change(text: &[u8]) -> Line
    ensures { result ≡ change_line text.now (state_line text.now bad) }
{
    if form::fits(
        b"enew S XX XX XXXXXXXXXXXXXXXXXXXXXXXXXXXXXXXX XXXXXXXXXXXXXXXXXXXXXXXXXXXXXXXX",
        text,
    ) {
        let call = Call::New {
            integrity: form::octet(text, 7),
            ciphering: form::octet(text, 10),
        };
        return Line::selected(text, 5, call);
    }
    if form::fits(
        b"ereselect S XX XX XXXXXXXXXXXXXXXXXXXXXXXXXXXXXXXX XXXXXXXXXXXXXXXXXXXXXXXXXXXXXXXX",
        text,
    ) {
        let call = Call::Reselect {
            integrity: form::octet(text, 12),
            ciphering: form::octet(text, 15),
        };
        return Line::selected(text, 10, call);
    }
    if form::fits(b"ewindow S XX", text) {
        return Line::plain(form::slot(text, 8), Call::Window(form::octet(text, 10)));
    }
    state(text)
}

// A line up to its octets. The messages come first: they are the most.
pub fn head(text: &[u8]) -> Line
    ensures { result ≡ head_of text.now }
{
    if form::begins(b"eseal S XX D XXXX ", text) {
        let call = Call::Seal {
            header: form::octet(text, 8),
            direction: form::digit(text, 11),
        };
        return Line::headed(form::slot(text, 6), call, form::room(text, 13), 18);
    }
    if form::begins(b"eopen S D XXXX ", text) {
        let call = Call::Open(form::digit(text, 8));
        return Line::headed(form::slot(text, 6), call, form::room(text, 10), 15);
    }
    if form::fits(b"esr S XX XXXX", text) {
        let call = Call::Request(form::octet(text, 6));
        return Line {
            room: form::room(text, 9),
            ..Line::plain(form::slot(text, 4), call)
        };
    }
    change(text)
}
