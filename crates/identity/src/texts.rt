// The two lent texts, and the part of them that an identity's place names.
ghost use Rattle.std.specs.Prelude.{◌≡◌, cond};
ghost use Rattle.identity.specs.Order.{compared, sign};
ghost use Rattle.identity.specs.Short.{names_ascii};
ghost use Rattle.identity.specs.Text.{part_at, part_pointer, named_text, place_inside, identity_text, identity_pointer};

use crate::IdentityPlace;
use crate::compare::compare_bytes;
use crate::scan::short_ascii;
use std::cmp::Ordering;

// The `len` bytes of `text` from `start`, or the empty part at the text's start where that place is outside.
pub fn part_at(text: &[u8], start: u32, len: u32) -> &[u8]
    ensures value { result.now ≡ part_at text.now start len }
    ensures pointer { result.ref_ptr ≡ part_pointer text.entry.ref_ptr text.now start len }
{
    let begin = start as usize;
    let end = begin + len as usize;
    if end <= text.len() {
        &text[begin..end]
    } else {
        &text[..0]
    }
}

// The texts that identities are parts of: the batch's and the house's.
#[derive(Clone, Copy)]
pub struct Texts<'a> {
    pub batch: &'a [u8],
    pub house: &'a [u8],
}

impl<'a> Texts<'a> {
    // The text that a place is in.
    fn named(self, place: IdentityPlace) -> &'a [u8]
        ensures value { result.now ≡ named_text self.entry.batch.now self.entry.house.now place }
        ensures pointer { result.ref_ptr ≡ cond place.house self.entry.house.ref_ptr self.entry.batch.ref_ptr }
    {
        if place.house { self.house } else { self.batch }
    }

    // Whether a place is inside its text.
    pub fn holds(self, place: IdentityPlace) -> bool
        ensures { result ≡ place_inside self.entry.batch.now self.entry.house.now place }
    {
        place.start as usize + place.len as usize <= self.named(place).len()
    }

    // The text of an identity, lent back as a part of whichever text its place names.
    pub fn identity_text(self, place: IdentityPlace) -> &'a [u8]
        ensures value { result.now ≡ identity_text self.entry.batch.now self.entry.house.now place }
        ensures pointer { let b = self.entry.batch in let h = self.entry.house in result.ref_ptr ≡ identity_pointer b.ref_ptr h.ref_ptr b.now h.now place }
    {
        part_at(self.named(place), place.start, place.len)
    }

    // Whether a place is inside its text and names 4 to 16 bytes of ASCII.
    pub fn names_ascii(self, place: IdentityPlace) -> bool
        ensures { result ≡ names_ascii self.entry.batch.now self.entry.house.now place }
    {
        self.holds(place) && short_ascii(self.identity_text(place))
    }

    // The order of two identities by byte, a place outside counting as empty: of the texts that they name, so that it is no `Ord` of the places.
    pub fn compare(self, left: IdentityPlace, right: IdentityPlace) -> Ordering
        ensures { let text = identity_text self.entry.batch.now self.entry.house.now in result ≡ compared (text left) (text right) }
    {
        compare_bytes(self.identity_text(left), self.identity_text(right))
    }

    // Their order as -1, 0 or 1: document 01 names this function, and document 02 its numbers, so that it stands beside `compare`.
    pub fn compare_utf8(self, left: IdentityPlace, right: IdentityPlace) -> i8
        ensures { let text = identity_text self.entry.batch.now self.entry.house.now in result ≡ sign (compared (text left) (text right)) }
    {
        self.compare(left, right) as i8
    }
}
