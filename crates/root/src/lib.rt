// The whole square root of a natural number.
#![tactic(auto)]

ghost use Rattle.std.specs.Prelude.{◌≡◌};
ghost use Rattle.root.specs.Root.{whole_root};

// Document 01: "of a whole number it is the whole root". By bisection, a binary digit a turn: the root is from low up
// and below low + width. The library's `isqrt` takes half as long again.
pub fn whole_root(n: u64) -> u64
    ensures { result ≡ whole_root n }
{
    let mut low: u64 = 0;
    let mut width: u64 = 0x1_0000_0000;
    for _ in 0..32u8 {
        let half = width / 2;
        if (low + half) * (low + half) <= n {
            low += half;
        }
        width -= half;
    }
    low
}
