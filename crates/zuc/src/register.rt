// The LFSR.
ghost use Rattle.std.specs.Prelude.{◌≡◌, ◌+◌, ◌*◌, ◌/◌, ◌%◌, ◌^◌, ◌<◌};
ghost use Rattle.zuc.specs.Register.{cell, total, shift};

// The part above bit 30 added to the low 31 bits: the same number modulo 2^31 - 1.
fn fold(v: u64) -> u64
    ensures { result ≡ v / 2 ^ 31 + v % 2 ^ 31 }
{
    v / 0x8000_0000 + v % 0x8000_0000
}

fn cell_of(v: u64) -> u32
    requires { v < 2 ^ 54 }
    ensures { result ≡ cell v }
{
    let f = fold(fold(v));
    if f == 0 { 0x7fff_ffff } else { f as u32 }
}

fn weighed(a: u32, b: u32, c: u32, d: u32, e: u32, u: u32) -> u64
    ensures { (result ≡ 2 ^ 15 * a + 2 ^ 17 * b + 2 ^ 21 * c + 2 ^ 20 * d + (1 + 2 ^ 8) * e + u) × (result < 2 ^ 54) }
{
    0x8000 * a as u64
        + 0x2_0000 * b as u64
        + 0x20_0000 * c as u64
        + 0x10_0000 * d as u64
        + 257 * e as u64
        + u as u64
}

fn new_cell(s: [u32; 16], u: u32) -> u32
    ensures { result ≡ cell (total s + u) }
{
    cell_of(weighed(s[15], s[13], s[10], s[4], s[0], u))
}

#[tactic(auto, unfolding(crate::specs::Register::shift))]
pub fn shifted(s: [u32; 16], u: u32) -> [u32; 16]
    ensures { result ≡ shift u s }
{
    streams::shifted(s, new_cell(s, u))
}
