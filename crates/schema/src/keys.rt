// The index types as keys of their tables, and what the records of lists hold of them.
#![tactic(auto, unfolding(crate::specs::Rows::index_at))]

ghost use Rattle.std.specs.Prelude.{◌≡◌, ◌<◌, refl};
ghost use Rattle.std.proofs.Common.{rules};
ghost use Rattle.schema.specs.Rows.{index_at};
ghost use Rattle.schema.specs.Tables.{tables};
ghost use Rattle.schema.specs.Keys.{known_2, known_3, known_4, known_5, known_6, known_7, known_24};
ghost use Rattle.schema.specs.Past.{index_past};

use crate::index::{
    ActionIndex, BindingSlotIndex, Index, ModeIndex, PortIndex, ReactionIndex, ReactorIndex,
    ScopeIndex,
};
use crate::record::Record;
use crate::row::{Key, ListKey, Row, Stored};
use crate::rows::{
    ActionImage, ModeImage, PortImage, ReactionImage, ReactorImage, RequiredBindingImage,
    ScopeImage,
};

// The row type of a key's table. One block for each key below: no macro may write them, and each names its row.
pub trait Keyed {
    type Row: Row;

    // Its table is one of a pack's.
    ghost known: { Self.Row.TABLE < tables };
}

impl<const T: u8> Key for Index<T>
where
    Index<T>: Keyed,
{
    type Row = <Index<T> as Keyed>::Row;

    ghost number = { λ k. k.0 };

    ghost known = { Prim.search rules };

    fn number(self) -> u32 {
        self.0
    }
}

impl<const T: u8> Stored for Index<T> {
    ghost at = { λ p n. record { 0 = index_at p n } };

    ghost zeros = { record { 0 = 0 } };

    ghost past = { λ p n h w e. record { 0 = index_past p n h w e } };

    fn empty() -> Self {
        Self::default()
    }

    fn of(from: Record) -> Self {
        Index(from.word(4))
    }
}

impl<const T: u8> ListKey for Index<T>
where
    Index<T>: Keyed,
{
    ghost stored = { λ p n. refl };
}

impl Keyed for ReactorIndex {
    type Row = ReactorImage;

    ghost known = { known_2 };
}

impl Keyed for ActionIndex {
    type Row = ActionImage;

    ghost known = { known_3 };
}

impl Keyed for PortIndex {
    type Row = PortImage;

    ghost known = { known_4 };
}

impl Keyed for ReactionIndex {
    type Row = ReactionImage;

    ghost known = { known_5 };
}

impl Keyed for ModeIndex {
    type Row = ModeImage;

    ghost known = { known_6 };
}

impl Keyed for ScopeIndex {
    type Row = ScopeImage;

    ghost known = { known_7 };
}

impl Keyed for BindingSlotIndex {
    type Row = RequiredBindingImage;

    ghost known = { known_24 };
}
