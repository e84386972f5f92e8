// One scalar of a text: UTF-8's bytes and their value, controls and white space.
ghost use Rattle.std.specs.Prelude.{◌≡◌, ◌<◌, length, get_or};
ghost use Rattle.identity.specs.Utf8.{follows, checked, two_bytes, three_bytes, four_bytes, scalar_at};
ghost use Rattle.identity.specs.Unicode.{control, white_space};

// A scalar of a text: its value, and how many bytes it takes.
#[derive(Clone, Copy, Debug, PartialEq, Eq)]
pub struct Scalar {
    pub value: u32,
    pub width: usize,
}

// A following byte.
pub fn follows(b: u8) -> bool
    ensures { result ≡ follows b }
{
    matches!(b, 0x80..=0xBF)
}

// The byte at `at`, or 0 past the end.
fn byte_at(text: &[u8], at: usize) -> u8
    ensures { result ≡ get_or text.now at 0 }
{
    text.get(at).copied().unwrap_or(0)
}

// The scalar, where it has its following bytes, is not below the first of its length, and is allowed.
#[tactic(auto, unfolding(crate::specs::Utf8::allowed))]
fn checked(following: bool, low: u32, value: u32, width: usize) -> Option<Scalar>
    ensures { result ≡ checked following low value width }
{
    let allowed = matches!(value, 0x0000..=0xD7FF | 0xE000..=0x10FFFF);
    (following & (low <= value) & allowed).then_some(Scalar { value, width })
}

// The scalar that two bytes encode, and those of three and of four: RFC 3629 has a formula for each length.
fn two_bytes(a: u8, b: u8) -> Option<Scalar>
    ensures { result ≡ two_bytes a b }
{
    let value = u32::from(a) % 32 * 64 + u32::from(b) % 64;
    checked(follows(b), 0x80, value, 2)
}

fn three_bytes(a: u8, b: u8, c: u8) -> Option<Scalar>
    ensures { result ≡ three_bytes a b c }
{
    let value = u32::from(a) % 16 * 4096 + u32::from(b) % 64 * 64 + u32::from(c) % 64;
    checked(follows(b) & follows(c), 0x800, value, 3)
}

fn four_bytes(a: u8, b: u8, c: u8, d: u8) -> Option<Scalar>
    ensures { result ≡ four_bytes a b c d }
{
    let high = u32::from(a) % 8 * 262144 + u32::from(b) % 64 * 4096;
    let value = high + u32::from(c) % 64 * 64 + u32::from(d) % 64;
    checked(follows(b) & follows(c) & follows(d), 0x10000, value, 4)
}

// The scalar that starts at `at`; none where the bytes there encode none.
// `at` is the place of the one scalar read, here and in `scan`: a type of text and place, made anew at each step, would be no plainer.
#[tactic(auto, unfolding(crate::specs::Utf8::scalar_at))]
pub fn utf8_scalar(text: &[u8], at: usize) -> Option<Scalar>
    requires { at < length text.now }
    ensures { result ≡ scalar_at text.now at }
{
    let a = text[at];
    match a {
        0x00..=0x7F => Some(Scalar {
            value: u32::from(a),
            width: 1,
        }),
        0xC2..=0xDF => two_bytes(a, byte_at(text, at + 1)),
        0xE0..=0xEF => three_bytes(a, byte_at(text, at + 1), byte_at(text, at + 2)),
        0xF0..=0xF4 => four_bytes(
            a,
            byte_at(text, at + 1),
            byte_at(text, at + 2),
            byte_at(text, at + 3),
        ),
        _ => None,
    }
}

// A control: general category Cc.
#[tactic(auto, unfolding(crate::specs::Unicode::control))]
pub fn unicode_control(value: u32) -> bool
    ensures { result ≡ control value }
{
    matches!(value, 0x00..=0x1F | 0x7F..=0x9F)
}

// The property White_Space.
#[tactic(auto, unfolding(crate::specs::Unicode::white_space))]
pub fn unicode_whitespace(value: u32) -> bool
    ensures { result ≡ white_space value }
{
    matches!(
        value,
        0x0009..=0x000D
            | 0x0020
            | 0x0085
            | 0x00A0
            | 0x1680
            | 0x2000..=0x200A
            | 0x2028..=0x2029
            | 0x202F
            | 0x205F
            | 0x3000
    )
}
