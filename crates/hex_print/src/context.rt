// A context, as `show` prints it.
ghost use Rattle.std.specs.Prelude.{◌≡◌, [], ◌∷◌, ◌++◌, ◌+◌, ◌≤◌, length, take};
ghost use Rattle.hex_lines.specs.Hex.{text_of};
ghost use Rattle.hex_print.specs.Lines.{record_text, core_text, shown_text};
ghost use Rattle.hex_print.specs.Words.{Puts, octets_word};

use crate::words;
use aes::Key;
use count::Record;
use nas_5gs::Context;
use nas_core::Core;

pub fn record(rec: Record, out: &mut [u8], at: usize) -> usize
    requires { at + 34 ≤ length out.old }
    ensures { Puts out.old at (record_text rec) out.new result × (result ≤ at + 34) }
{
    let next = words::word(rec.next as u64, 4, out, at);
    words::word(rec.bits, 8, out, next)
}

fn key(key: Key, out: &mut [u8], at: usize) -> usize
    requires { at + 34 ≤ length out.old }
    ensures { Puts out.old at (octets_word key.octets) out.new result × (result ≤ at + 34) }
{
    let octets = key.octets();
    words::octets(&octets, out, at)
}

// The codes, keys and size.
pub fn core(core: Core, out: &mut [u8], at: usize) -> usize
    requires { at + 256 ≤ length out.old }
    ensures { Puts out.old at (core_text core) out.new result × (result ≤ at + 104) }
{
    let integrity_key = core.integrity_key;
    let ciphering_key = core.ciphering_key;
    let first = code(core.integrity, out, at);
    let coded = words::word(core.ciphering as u64, 1, out, first);
    let one = key(integrity_key, out, coded);
    let two = key(ciphering_key, out, one);
    words::word(core.size as u64, 1, out, two)
}

fn code(octet: u8, out: &mut [u8], at: usize) -> usize
    requires { at + 2 ≤ length out.old }
    ensures { Puts out.old at (text_of (octet ∷ [])) out.new result × (result ≤ at + 2) }
{
    hex_lines::put_octets(&[octet], out, at)
}

pub fn shown(context: Context, out: &mut [u8], at: usize) -> usize
    requires { at + 1024 ≤ length out.old }
    ensures { Puts out.old at (shown_text context) out.new result × (result ≤ at + 240) }
{
    let next = core(context.core, out, at);
    let a = record(context.records[0], out, next);
    let b = record(context.records[1], out, a);
    let c = record(context.records[2], out, b);
    record(context.records[3], out, c)
}
