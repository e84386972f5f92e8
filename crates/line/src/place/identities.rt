// Refusals of identities in words: what is wrong with the text.
use crate::show::names::Named;
use crate::show::words::IdentityText;
use identity::IdentityPlace;
use identity::decode::{unicode_control, unicode_whitespace};
use identity::texts::Texts;
use std::io::Write;
use std::{io, str};

// The identity of a refusal's three numbers: its text, its start and its length.
pub(crate) fn place_of(house: u64, start: u64, len: u64) -> Option<IdentityPlace> {
    Some(IdentityPlace {
        house: house == 1,
        start: u32::try_from(start).ok()?,
        len: u32::try_from(len).ok()?,
    })
}

fn is_blank(c: Option<char>) -> bool {
    c.is_some_and(|c| unicode_whitespace(u32::from(c)))
}

// Why a text is no identity.
fn fault_of(text: &[u8]) -> &'static str {
    let Ok(text) = str::from_utf8(text) else {
        return "is not UTF-8";
    };
    if text.is_empty() {
        return "is empty";
    }
    if is_blank(text.chars().next()) {
        return "begins with white space";
    }
    if is_blank(text.chars().next_back()) {
        return "ends with white space";
    }
    if text.chars().any(|c| unicode_control(u32::from(c))) {
        return "has a control character";
    }
    "is not valid"
}

// What is wrong with the identity of a refusal.
pub(crate) fn write_identity<W: Write>(
    out: &mut W,
    texts: Texts,
    refusal: &[u64],
) -> io::Result<()> {
    let [number, kind, _, house, start, len] = refusal else {
        return Ok(());
    };
    let Some(place) = place_of(*house, *start, *len) else {
        return Ok(());
    };
    let kind = Named::Kind.name_or_unknown(*kind);
    let why = match *number {
        19 => fault_of(texts.identity_text(place)),
        20 => "sorts before the one before it",
        _ => "is the same as the one before it",
    };
    writeln!(
        out,
        "identity of the kind {kind}: {} {why}",
        IdentityText { texts, place }
    )
}
