// What a row's bits are in its record.
ghost use Rattle.std.specs.Prelude.{◌≡◌};
ghost use Rattle.cases.specs.Fields as spec;

// Two bits of a byte, the lowest first, and three: std makes no byte of them.
pub fn bits(low: bool, high: bool) -> u8
    ensures { result ≡ spec.bits low high }
{
    u8::from(low) + 2 * u8::from(high)
}

pub fn three_bits(low: bool, middle: bool, high: bool) -> u8
    ensures { result ≡ spec.three_bits low middle high }
{
    bits(low, middle) + 4 * u8::from(high)
}
