// A line of a test set: words with a blank between, the first of which is its kind.
use aes::Input;

#[derive(Clone, Copy)]
pub struct Line<'a> {
    text: &'a [u8],
}

// What a line is for. Nea and Nia have their algorithm's code.
#[derive(Clone, Copy)]
pub enum Kind {
    Block,
    Ctr,
    Cmac,
    Nea(u8),
    Nia(u8),
    Uia2,
    Snow3g,
    Zuc,
}

// kept: as in speed: neither program stands on the other, and a crate for these lines would be longer than they are.
// An algorithm's code by its letter; any other letter is AES.
fn algorithm(letter: u8) -> u8 {
    match letter {
        b'1' => 1,
        b'3' => 3,
        _ => 2,
    }
}

// The four words of a key or an IV of SNOW 3G.
pub fn words(octets: [u8; 16]) -> [u32; 4] {
    std::array::from_fn(|i| {
        u32::from_be_bytes([
            octets[i * 4],
            octets[i * 4 + 1],
            octets[i * 4 + 2],
            octets[i * 4 + 3],
        ])
    })
}

impl<'a> Line<'a> {
    pub fn of(text: &'a [u8]) -> Line<'a> {
        Line { text }
    }

    fn letter(self, i: usize) -> u8 {
        self.text.get(i).copied().unwrap_or(0)
    }

    pub fn kind(self) -> Kind {
        match (self.letter(0), self.letter(1)) {
            (b'a', _) => Kind::Block,
            (b'n', b'e') => Kind::Nea(algorithm(self.letter(3))),
            (b'n', _) => Kind::Nia(algorithm(self.letter(3))),
            (b'u', _) => Kind::Uia2,
            (b's', _) => Kind::Snow3g,
            (b'z', _) => Kind::Zuc,
            (_, b't') => Kind::Ctr,
            _ => Kind::Cmac,
        }
    }

    // Word k, counted from 0; an empty one where there are fewer.
    pub fn word(self, k: usize) -> &'a [u8] {
        self.text.split(|&c| c == b' ').nth(k).unwrap_or(&[])
    }

    // Word k's octets, behind which there are zeros. A word that is no hex, or of more octets, gives zeros alone.
    pub fn octets<const N: usize>(self, k: usize) -> [u8; N] {
        let mut octets = [0; N];
        let _ = hex_lines::decode(self.word(k), &mut octets);
        octets
    }

    pub fn number(self, k: usize) -> u32 {
        u32::from_be_bytes(self.octets(k))
    }

    // What the words from the third on say of COUNT, BEARER and DIRECTION.
    pub fn input(self) -> Input {
        Input {
            count: self.number(3),
            bearer: self.octets::<1>(4)[0],
            direction: self.word(5).first().map_or(0, |c| c % 2),
        }
    }

    // The number of a word of the key stream, counted from 0.
    pub fn place(self) -> usize {
        self.number(4).saturating_sub(1) as usize
    }

    // Word k's octets in a room of zeros, and no more than it has room for.
    pub fn message<'b>(self, k: usize, room: &'b mut [u8; 0x1_0000]) -> &'b mut [u8] {
        let text = self.word(k);
        let n = (text.len() / 2).min(room.len());
        let octets = &mut room[..n];
        let _ = hex_lines::decode(text, octets);
        octets
    }
}
