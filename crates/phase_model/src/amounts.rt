//! How much a value weighs in sums: upwards if it is positive, downwards if it is negative.
ghost use Rattle.std.specs.Prelude.{◌≡◌, ◌≤◌};
ghost use Rattle.phase_model.specs.Amounts.{up_of, down_of};

/// What a value adds to the sum of the positive values: itself, and 0 if it is negative.
#[inline(always)]
pub fn up_of(value: i32) -> u64
    ensures value { result ≡ up_of value }
    ensures bound { result ≤ 2147483648 }
{
    if value > 0 {
        u64::from(value.unsigned_abs())
    } else {
        0
    }
}

/// What a value adds to the sum of the negative values' magnitudes: its magnitude, and 0 if it
/// is positive.
#[inline(always)]
pub fn down_of(value: i32) -> u64
    ensures value { result ≡ down_of value }
    ensures bound { result ≤ 2147483648 }
{
    if value < 0 {
        u64::from(value.unsigned_abs())
    } else {
        0
    }
}
