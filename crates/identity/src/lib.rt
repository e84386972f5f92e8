// The text of an identity: its scalars, whether it is valid, the part of a text that it names, the order by byte. A start and a length of 32 bits become
// indices by `as usize`: std has no `From` for that.
#![tactic(auto)]

pub mod compare;
pub mod decode;
pub mod scan;
pub mod texts;

// The place of an identity: which lent text, where it starts, how long it is.
// `house` is a bit of the pack, so it is a `bool`.
#[derive(Clone, Copy, Debug, Default, PartialEq, Eq)]
pub struct IdentityPlace {
    pub house: bool,
    pub start: u32,
    pub len: u32,
}
