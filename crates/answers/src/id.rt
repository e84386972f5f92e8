// The identities that refusals name.
ghost use Rattle.std.specs.Prelude.{◌≡◌, [], ◌∷◌};
ghost use Rattle.answers.specs.Numbers.{placed, identified};
ghost use Rattle.answers.specs.Fields.{kind_number};

use identity::IdentityPlace;

// The kinds of identities, by document 01's numbers.
#[derive(Clone, Copy, Debug, PartialEq, Eq)]
pub enum IdKind {
    Federate = 1,
    Target,
    Runtime,
    Enclave,
    Boundary,
    Binding,
}

impl From<IdKind> for u8 {
    ghost from_gives = { λ kind number. number ≡ kind_number kind };

    fn from(kind: IdKind) -> u8 {
        kind as u8
    }
}

// The identity of row `index`, of a kind.
#[derive(Clone, Copy, Debug)]
pub struct StableId {
    pub kind: IdKind,
    pub index: u32,
    pub id: IdentityPlace,
}

// The text bit, the start and the length.
pub fn place_numbers(id: IdentityPlace) -> [u64; 3]
    ensures { result ≡ placed id [] }
{
    [u64::from(id.house), u64::from(id.start), u64::from(id.len)]
}

impl StableId {
    pub fn numbers(self) -> [u64; 5]
        ensures { result ≡ identified self [] }
    {
        let [house, start, len] = place_numbers(self.id);
        [
            u64::from(u8::from(self.kind)),
            u64::from(self.index),
            house,
            start,
            len,
        ]
    }
}
