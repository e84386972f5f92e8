// The fields that refusals name, by the Rust's names and document 01's numbers, and where in a pack's rows a field stands.
ghost use Rattle.std.specs.Prelude.{◌≡◌, [], ◌∷◌};
ghost use Rattle.answers.specs.Fields.{field_number};
ghost use Rattle.answers.specs.Numbers.{located};

use schema::row::{Key, Row};

#[derive(Clone, Copy, Debug, PartialEq, Eq)]
pub enum Field {
    RootReactor = 1,
    StateBinding,
    RootScope,
    Modes,
    InitialMode,
    Scope,
    Binding,
    Triggers,
    Reactor,
    ScopeReactor,
    ModeEffectTarget,
    ModeEffectTargetReactor,
    UsePorts,
    EffectPorts,
    Actions,
    EnabledModes,
    ScopeMode,
    ReactorModes,
    Parent,
    Mode,
    Descendants,
    LogicalActions,
    TimerStartups,
    ResetReactions,
    StartupReactions,
    ShutdownReactions,
    Reaction,
    DependencyLevel,
    Action,
    Port,
    EnabledModesReactor,
    LocalPort,
    Enclaves,
    TimingDomain,
    DelayNanos,
}

impl From<Field> for u8 {
    ghost from_gives = { λ field number. number ≡ field_number field };

    fn from(field: Field) -> u8 {
        field as u8
    }
}

// A field of row `index` of a table. Where a row is named without a field, its table and its index stand side by side, as document 01 shows them: a
// struct of the two would be taken apart for each refusal, and wherever a field is added to them.
#[derive(Clone, Copy, Debug)]
pub struct RowField {
    pub table: u8,
    pub index: u32,
    pub field: Field,
}

impl RowField {
    // The field of a key's row.
    pub fn of<K: Key>(key: K, field: Field) -> RowField
        ensures { result ≡ record { table = K.Row.TABLE; index = K.number key; field = field } }
    {
        RowField {
            table: K::Row::TABLE,
            index: key.number(),
            field,
        }
    }

    // Three of a refusal's numbers, as `StableId` has five: parts of one list, and no conversion to one value.
    pub fn numbers(self) -> [u64; 3]
        ensures { result ≡ located self [] }
    {
        [
            u64::from(self.table),
            u64::from(self.index),
            u64::from(u8::from(self.field)),
        ]
    }
}
