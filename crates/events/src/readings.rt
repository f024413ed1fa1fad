// An IMU's readings as singles: counts as accelerations and rotations, and patterns of bits.
ghost use Rattle.std.specs.Prelude.{◌≡◌};
ghost use Rattle.std.specs.Float.{binary32};
ghost use Rattle.std.specs.Float.Ieee.{of_int};
ghost use Rattle.events.specs.Readings.{signed_of, acceleration_of, rotation_of, single_of};

// The signed number that a count means.
#[tactic(auto, using(crate::proofs::Floats::signed_negative))]
fn signed(count: u16) -> f32
    ensures { result ≡ of_int binary32 (signed_of count) }
{
    if count < 32768 {
        return count as f32;
    }
    -((65535 - count + 1) as f32)
}

// The acceleration of a count in g: exact, since the divisor is a power of two.
#[tactic(auto, using(crate::proofs::Floats::divisor_bits), unfolding(crate::specs::Readings::acceleration_of))]
pub fn acceleration(count: u16) -> f32
    ensures { result ≡ acceleration_of count }
{
    signed(count) / 16384.0
}

// The rotation of a count in degrees a second, rounded once. A const parameter for the divisor would be no plainer: each of the two is one line,
// and has a law of its own.
#[tactic(auto, using(crate::proofs::Floats::divisor_bits_131), unfolding(crate::specs::Readings::rotation_of))]
pub fn rotation(count: u16) -> f32
    ensures { result ≡ rotation_of count }
{
    signed(count) / 131.0
}

// The single of 32 bits. Every pattern of a NaN gives a NaN, whose payload is free.
#[tactic(auto, using(crate::proofs::Floats::zero_over_zero, crate::proofs::Floats::pattern_nan, crate::proofs::Floats::pattern_number))]
pub fn single(bits: u32) -> f32
    ensures { result ≡ single_of bits }
{
    if 2139095040 < bits % 2147483648 {
        return f32::NAN;
    }
    f32::from_bits(bits)
}
