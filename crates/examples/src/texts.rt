// Examples from outside for the text of an identity, a line for each: bytes or places, and the library's answer.
ghost use Rattle.std.specs.Prelude.{◌≤◌, length};

use identity::IdentityPlace;
use identity::scan::{is_utf8, valid_id};
use identity::texts::Texts;
use std::io::Write;
use std::{fmt, io};

// Bytes, shown in hexadecimal, or as `-` where there are none.
#[derive(Clone, Copy)]
struct Hex<'a>(&'a [u8]);

impl<'a> fmt::Display for Hex<'a> {
    fn fmt<W: fmt::Write>(&self, f: &mut fmt::Formatter<W>) -> fmt::Result {
        if self.0.is_empty() {
            return write!(f, "-");
        }
        for b in self.0 {
            write!(f, "{b:02x}")?;
        }
        Ok(())
    }
}

// A text, whether it is UTF-8, and whether it is a valid identity.
fn show_text<W: Write>(out: &mut W, text: &[u8]) -> io::Result<()> {
    let utf8 = if is_utf8(text) { "utf-8" } else { "malformed" };
    let valid = if valid_id(text) { "valid" } else { "invalid" };
    writeln!(out, "{} {utf8} {valid}", Hex(text))
}

// A heading, and texts with bars between them.
fn show_texts<W: Write>(out: &mut W, heading: &str, texts: &[u8]) -> io::Result<()> {
    writeln!(out, "{heading}")?;
    for text in texts.split(|b| *b == b'|') {
        show_text(out, text)?;
    }
    Ok(())
}

// A character of at most three bytes: before letters, after them, and between them. Room of the frame: nothing here asks for memory.
fn show_character<W: Write>(out: &mut W, letters: &[u8], character: &[u8]) -> io::Result<()>
    requires { length letters.now ≤ 21 }
{
    let n = character.len();
    if 3 < n {
        return Ok(());
    }
    let k = letters.len();
    let end = k + n;
    // Room for 21 letters, three bytes and 21 letters.
    let mut text = [0u8; 45];
    text[..k].copy_from_slice(letters);
    text[k..end].copy_from_slice(character);
    text[end..end + k].copy_from_slice(letters);
    show_text(out, &text[k..end + k])?;
    show_text(out, &text[..end])?;
    show_text(out, &text[..end + k])
}

// A heading, and characters with bars between them, each with letters around it.
fn show_characters<W: Write>(
    out: &mut W,
    letters: &[u8],
    heading: &str,
    characters: &[u8],
) -> io::Result<()>
    requires { length letters.now ≤ 21 }
{
    writeln!(out, "{heading}")?;
    for character in characters.split(|b| *b == b'|') {
        show_character(out, letters, character)?;
    }
    Ok(())
}

// One letter, and letters of more than a block of 16 bytes, one of them not ASCII.
const LETTER: &[u8] = b"a";

const LETTERS: &[u8] = b"abcdefg\xC3\xA9jklmnopqrstu";

// A digit's number, the low half of its byte; `*` is the largest number. std's `to_digit` has no number for other characters.
fn number(digit: Option<u8>) -> u32 {
    match digit {
        Some(b'*') => u32::MAX,
        Some(digit) => u32::from(digit % 16),
        None => 0,
    }
}

// The place that three characters name: `b` or `h` for batch or house, where it starts, how long it is.
fn place(name: &str) -> IdentityPlace {
    let mut letters = name.bytes();
    let house = letters.next() == Some(b'h');
    let start = number(letters.next());
    let len = number(letters.next());
    IdentityPlace { house, start, len }
}

const TEXTS: Texts = Texts {
    batch: b"abcabd",
    house: b"abc\xFFz",
};

// A place, whether it is inside its text, and the text that it names.
fn show_place<W: Write>(out: &mut W, name: &str) -> io::Result<()> {
    let place = place(name);
    let inside = if TEXTS.holds(place) {
        "inside"
    } else {
        "outside"
    };
    writeln!(out, "{name} {inside} {}", Hex(TEXTS.identity_text(place)))
}

// Two places and the order of their texts.
fn show_order<W: Write>(out: &mut W, names: &str) -> io::Result<()> {
    let Some((left, right)) = names.split_once(' ') else {
        return Ok(());
    };
    let order = TEXTS.compare_utf8(place(left), place(right));
    writeln!(out, "{names} {order}")
}

fn utf_8<W: Write>(out: &mut W) -> io::Result<()> {
    show_texts(
        out,
        "RFC 3629, section 7",
        b"\x41\xE2\x89\xA2\xCE\x91\x2E|\xED\x95\x9C\xEA\xB5\xAD\xEC\x96\xB4\
        |\xE6\x97\xA5\xE6\x9C\xAC\xE8\xAA\x9E|\xEF\xBB\xBF\xF0\xA3\x8E\xB4",
    )?;
    show_texts(
        out,
        "first bytes",
        b"\x00|\x7E|\x7F|\x80|\xBF|\xC0\x80|\xC1\xBF|\xC2\x80|\xC2\xBF|\xDF\xBF\
        |\xE0\xA0\x80|\xEF\xBF\xBF|\xF0\x90\x80\x80|\xF4\x8F\xBF\xBF\
        |\xF5\x80\x80\x80|\xF7\xBF\xBF\xBF|\xF8\x88\x80\x80\x80|\xFE|\xFF",
    )?;
    show_texts(
        out,
        "scalars in too many bytes, too high, surrogates and their neighbours",
        b"\xE0\x80\x80|\xE0\x9F\xBF|\xF0\x80\x80\x80|\xF0\x8F\xBF\xBF\
        |\xF4\x90\x80\x80|\xF4\xBF\xBF\xBF|\xED\x9F\xBF|\xED\xA0\x80|\xED\xAF\xBF\
        |\xED\xB0\x80|\xED\xBF\xBF|\xEE\x80\x80",
    )?;
    show_texts(
        out,
        "following bytes out of range, missing and left over",
        b"\xC3\x7F|\xC3\xC0|\xE1\x7F\x80|\xE1\xC0\x80|\xE1\x80\x7F|\xE1\x80\xC0\
        |\xF1\x7F\x80\x80|\xF1\xC0\x80\x80|\xF1\x80\x7F\x80|\xF1\x80\xC0\x80\
        |\xF1\x80\x80\x7F|\xF1\x80\x80\xC0|\xC3|\xE1|\xE1\x80|\xF1|\xF1\x80|\xF1\x80\x80\
        |a\xC3|a\x80|\xC3\xA9\xA9|\xC3\xC3\xA9",
    )
}

fn identities<W: Write>(out: &mut W) -> io::Result<()> {
    show_texts(
        out,
        "document 01, and the empty text",
        b" a|\xC2\xA0|a b|\xE2\x80\x8B|",
    )?;
    show_texts(
        out,
        "around a block of 16",
        b"abcdefghijklmno|abcdefghijklmnop|abcdefghijklmnopq|abcdefghijklmnopqrstuvwxyz012345\
        |abcdefghijklmno\xFF|abcdefghijklmnop\xFF|abcdefgh jklmnopqrstuvw\xC3\xA9z\
        |abcdefghijklmnop |abcdefghijklmnopqrst\x7Fv",
    )
}

const SURROGATES: &[u8] =
    b"\xED\x9F\xBF|\xED\xA0\x80|\xED\xAF\xBF|\xED\xB0\x80|\xED\xBF\xBF|\xEE\x80\x80";

fn surrogates<W: Write>(out: &mut W) -> io::Result<()> {
    let heading = "surrogates and their neighbours: first, last and in the middle";
    show_characters(out, LETTER, heading, SURROGATES)?;
    let heading = "surrogates and their neighbours in blocks: first, last and in the middle";
    show_characters(out, LETTERS, heading, SURROGATES)
}

fn characters<W: Write>(out: &mut W) -> io::Result<()> {
    show_characters(
        out,
        LETTER,
        "White_Space: first, last and in the middle",
        b"\x09|\x0A|\x0B|\x0C|\x0D|\x20|\xC2\x85|\xC2\xA0|\xE1\x9A\x80\
        |\xE2\x80\x80|\xE2\x80\x81|\xE2\x80\x82|\xE2\x80\x83|\xE2\x80\x84|\xE2\x80\x85\
        |\xE2\x80\x86|\xE2\x80\x87|\xE2\x80\x88|\xE2\x80\x89|\xE2\x80\x8A\
        |\xE2\x80\xA8|\xE2\x80\xA9|\xE2\x80\xAF|\xE2\x81\x9F|\xE3\x80\x80",
    )?;
    show_characters(
        out,
        LETTER,
        "next to White_Space, and no control",
        b"\x21|\xC2\xA1|\xE1\x99\xBF|\xE1\x9A\x81|\xE1\xBF\xBF|\xE2\x80\x8B|\xE2\x80\xA7\
        |\xE2\x80\xAA|\xE2\x80\xAE|\xE2\x80\xB0|\xE2\x81\x9E|\xE2\x81\xA0|\xE2\xBF\xBF|\xE3\x80\x81",
    )?;
    show_characters(
        out,
        LETTER,
        "controls, and 7E: first, last and in the middle",
        b"\x00|\x08|\x0E|\x1F|\x7E|\x7F|\xC2\x80|\xC2\x84|\xC2\x86|\xC2\x9F",
    )
}

fn places<W: Write>(out: &mut W) -> io::Result<()> {
    writeln!(
        out,
        "places in the batch text abcabd and the house text abc FF z"
    )?;
    for name in "b06|b07|b23|b51|b52|b60|b61|b70|b**|h05|h31|h50|h06|h60|h0*".split('|') {
        show_place(out, name)?;
    }
    writeln!(out, "orders")?;
    for names in "b03 b03|b03 b33|b33 b03|b03 h03|h03 b33|b02 b03|b03 b32|b00 b01|b01 b00\
        |b60 h00|b07 b01|b01 h51|b70 h42|h31 h41|h41 h31|b01 h32"
        .split('|')
    {
        show_order(out, names)?;
    }
    Ok(())
}

pub fn cases(rt: &HostRuntime) -> io::Result<()> {
    let mut out = io::writer(rt);
    utf_8(&mut out)?;
    surrogates(&mut out)?;
    identities(&mut out)?;
    characters(&mut out)?;
    places(&mut out)
}
