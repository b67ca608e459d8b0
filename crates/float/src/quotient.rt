// Quotients by a power of two, which may exceed the dividend's width.
ghost use Rattle.std.specs.Prelude.{◌≡◌, ◌/◌, ◌^◌};
ghost use Rattle.float.specs.Whole.{directed, half_away};

fn cut(a: u64, s: u64) -> u64
    ensures { result ≡ a / 2 ^ s }
{
    if s >= 64 { 0 } else { a >> s }
}

// Up to the next whole number, or down.
pub fn divide(a: u64, s: u64, up: bool) -> u64
    ensures { result ≡ directed up a (2 ^ s) }
{
    if up {
        if a == 0 { 0 } else { cut(a - 1, s) + 1 }
    } else {
        cut(a, s)
    }
}

// To the nearest whole number, a half up: by the quotient with one binary digit more.
pub fn nearest(a: u64, s: u64) -> u64
    ensures { result ≡ half_away a (2 ^ s) }
{
    if s == 0 {
        return a;
    }
    let twice = divide(a, s - 1, false);
    twice / 2 + twice % 2
}
