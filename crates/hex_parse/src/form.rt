// A text against a form, and its fields as numbers and keys. Places that a text does not have read as 0.
ghost use Rattle.std.specs.Prelude.{◌≡◌, ◌^◌, ◌≤◌, ◌<◌, length, take, drop};
ghost use Rattle.hex_parse.specs.Form.{may_stand, between, begins, fits, number_at, key_at};

fn is_between(low: u8, high: u8, c: u8) -> bool
    ensures { result ≡ between low high c }
{
    (low..=high).contains(&c)
}

fn may_stand(place: u8, c: u8) -> bool
    ensures { result ≡ may_stand place c }
{
    match place {
        b'X' => hex_lines::is_digit(c),
        b'S' => is_between(b'0', b'7', c),
        b'D' => is_between(b'0', b'1', c),
        b'C' => is_between(b'1', b'2', c),
        _ => c == place,
    }
}

// Whether a text begins as a form says.
pub fn begins(form: &[u8], text: &[u8]) -> bool
    ensures { result ≡ begins form.now text.now }
{
    for i in 0..form.len() {
        if text.len() <= i {
            return false;
        }
        if !may_stand(form[i], text[i]) {
            return false;
        }
    }
    true
}

// Whether a text is as a form says.
pub fn fits(form: &[u8], text: &[u8]) -> bool
    ensures { result ≡ fits form.now text.now }
{
    text.len() == form.len() && begins(form, text)
}

fn part(text: &[u8], at: usize, n: usize) -> &[u8]
    ensures { (result.now ≡ take n (drop at text.now)) × (length result.now ≤ n) }
{
    hex_lines::front(hex_lines::after(text, at), n)
}

fn number(text: &[u8], at: usize, n: usize) -> u64
    requires { n ≤ 16 }
    ensures { (result ≡ number_at text.now at n) × (result < 16 ^ n) }
{
    hex_lines::value(part(text, at, n))
}

pub fn slot(text: &[u8], at: usize) -> usize
    ensures { result ≡ number_at text.now at 1 }
{
    number(text, at, 1) as usize
}

pub fn digit(text: &[u8], at: usize) -> u8
    ensures { result ≡ number_at text.now at 1 }
{
    number(text, at, 1) as u8
}

pub fn octet(text: &[u8], at: usize) -> u8
    ensures { result ≡ number_at text.now at 2 }
{
    number(text, at, 2) as u8
}

pub fn room(text: &[u8], at: usize) -> usize
    ensures { result ≡ number_at text.now at 4 }
{
    number(text, at, 4) as usize
}

pub fn count(text: &[u8], at: usize) -> u32
    ensures { result ≡ number_at text.now at 8 }
{
    number(text, at, 8) as u32
}

pub fn bits(text: &[u8], at: usize) -> u64
    ensures { result ≡ number_at text.now at 16 }
{
    number(text, at, 16)
}

pub fn key(text: &[u8], at: usize) -> [u8; 16]
    ensures { result ≡ key_at text.now at }
{
    let mut key = [0u8; 16];
    let _ = hex_lines::decode(part(text, at, 32), &mut key);
    key
}
