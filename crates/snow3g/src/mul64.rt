// MUL64 with c = 1b, by four bits of a factor at a time.
ghost use Rattle.std.specs.Prelude.{◌≡◌};
ghost use Rattle.snow3g.specs.Uia2.{mul64x as mul64x_of, mul64 as mul64_of};
ghost use Rattle.snow3g.specs.Tables.{x4, multiples as multiples_of};

fn mul64x(v: u64) -> u64
    ensures { result ≡ mul64x_of v 0x1B }
{
    if v < 0x8000_0000_0000_0000 {
        v * 2
    } else {
        ((v - 0x8000_0000_0000_0000) * 2) ^ 0x1b
    }
}

// Four times by x: the four bits that go out come back as their product with x^4 + x^3 + x + 1.
fn shift4(u: u64) -> u64
    ensures { result ≡ x4 u }
{
    let t = u / 0x1000_0000_0000_0000;
    (u % 0x1000_0000_0000_0000 * 16) ^ (t ^ t * 2 ^ t * 8 ^ t * 16)
}

// The products of p with 0 .. 15.
fn multiples(p: u64) -> [u64; 16]
    ensures { result ≡ multiples_of p }
{
    let a = mul64x(p);
    let b = mul64x(a);
    let c = mul64x(b);
    let d = b ^ a;
    [
        0,
        p,
        a,
        a ^ p,
        b,
        b ^ p,
        d,
        d ^ p,
        c,
        c ^ p,
        c ^ a,
        c ^ a ^ p,
        c ^ b,
        c ^ b ^ p,
        c ^ d,
        c ^ d ^ p,
    ]
}

// A factor with its products with 0 .. 15.
#[derive(Clone, Copy)]
pub struct Factor {
    p: u64,
    products: [u64; 16],
    ghost known: { products ≡ multiples_of p },
}

impl Factor {
    pub fn of(p: u64) -> Factor
        ensures { result.p ≡ p }
    {
        Factor {
            p,
            products: multiples(p),
        }
    }

    // MUL64, by four bits of v at a time.
    pub fn times(&self, v: u64) -> u64
        ensures { result ≡ mul64_of v self.now.p 0x1B }
    {
        let mut sum: u64 = 0;
        for turn in 0..16_usize {
            let n = (v >> (60 - turn * 4)) % 16;
            sum = shift4(sum) ^ self.products[n as usize];
        }
        sum
    }
}
