// A FLOAT against a whole number, exactly.
ghost use Rattle.std.specs.Prelude.{◌≡◌};
ghost use Rattle.float.specs.Compare.{equals, is_zero};

// Document 01: "NaN counts as not zero, −0 as zero."
pub fn is_zero(x: f32) -> bool
    ensures { result ≡ is_zero x }
{
    x == 0.0
}

// binary64 holds every FLOAT and every i32.
pub fn equals_whole(x: f32, z: i32) -> bool
    ensures { result ≡ equals x z }
{
    std::num::f32_to_f64_with_nan(x) == z as f64
}
