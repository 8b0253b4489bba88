// S1 and S2 on words.
ghost use Rattle.std.specs.Prelude.{◌≡◌};
ghost use Rattle.snow3g.specs.Boxes.{s1, s2};
ghost use Rattle.snow3g.specs.Tables.{by_table};

use crate::tables::{S1, S2};

// A box on words, by the table of what one octet adds.
fn substituted(table: &[u32; 256], w: u32) -> u32
    ensures { result ≡ by_table table.now w }
{
    let [a, b, c, d] = w.to_be_bytes();
    table[a as usize]
        ^ table[b as usize].rotate_right(8)
        ^ table[c as usize].rotate_right(16)
        ^ table[d as usize].rotate_right(24)
}

// kept: S1 and S2 of the standard, each by its own table.
pub fn s1_word(w: u32) -> u32
    ensures { result ≡ s1 w }
{
    substituted(&S1, w)
}

pub fn s2_word(w: u32) -> u32
    ensures { result ≡ s2 w }
{
    substituted(&S2, w)
}
