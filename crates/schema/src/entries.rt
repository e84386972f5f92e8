// The rows of the list tables 8 to 22: each with its table number, its empty row, and its reader.
#![tactic(auto, unfolding(crate::specs::Rows::level_at, crate::specs::Rows::startup_at, crate::specs::Rows::lifecycle_at))]

ghost use Rattle.std.specs.Prelude.{◌≡◌};
ghost use Rattle.schema.specs.Rows.{empty, level_of, level_at, startup_of, startup_at, lifecycle_of, lifecycle_at};
ghost use Rattle.schema.specs.Past.{level_past, startup_past, lifecycle_past};

use crate::index::{ActionIndex, ModeIndex, PortIndex, ReactionIndex, ScopeIndex};
use crate::record::Record;
use crate::row::{Row, Stored};

// A reaction with its level: by level, then by reaction.
#[derive(Clone, Copy, Default, PartialEq, Eq, PartialOrd, Ord)]
pub struct LevelReactionImage {
    pub level: u32,
    pub reaction: ReactionIndex,
}

// An action with the delay of its first event.
#[derive(Clone, Copy, Default)]
pub struct TimerStartupImage {
    pub action: ActionIndex,
    pub logical_delay_nanos: u64,
}

// A reaction with the action that triggers it at startup or shutdown.
#[derive(Clone, Copy, Default)]
pub struct LifecycleReactionImage {
    pub reaction: LevelReactionImage,
    pub action: ActionIndex,
}

// One block for each type, as in `rows`: each has its own fields.
impl Stored for LevelReactionImage {
    ghost at = { level_at };

    ghost zeros = { empty level_of };

    ghost past = { level_past };

    fn empty() -> Self {
        Self::default()
    }

    fn of(from: Record) -> Self {
        LevelReactionImage {
            level: from.word(4),
            reaction: ReactionIndex::new(from.word(8)),
        }
    }
}

impl Stored for TimerStartupImage {
    ghost at = { startup_at };

    ghost zeros = { empty startup_of };

    ghost past = { startup_past };

    fn empty() -> Self {
        Self::default()
    }

    fn of(from: Record) -> Self {
        TimerStartupImage {
            action: ActionIndex::new(from.word(4)),
            logical_delay_nanos: from.long(8),
        }
    }
}

impl Stored for LifecycleReactionImage {
    ghost at = { lifecycle_at };

    ghost zeros = { empty lifecycle_of };

    ghost past = { lifecycle_past };

    fn empty() -> Self {
        Self::default()
    }

    fn of(from: Record) -> Self {
        LifecycleReactionImage {
            reaction: LevelReactionImage {
                level: from.word(4),
                reaction: ReactionIndex::new(from.word(8)),
            },
            action: ActionIndex::new(from.word(12)),
        }
    }
}

// A row of list table T: what its records hold.
#[derive(Clone, Copy)]
pub struct Entry<R, const T: u8> {
    pub holds: R,
}

impl<R: Stored, const T: u8> Stored for Entry<R, T> {
    ghost at = { λ p n. record { holds = R.at p n } };

    ghost zeros = { record { holds = R.zeros } };

    ghost past = { λ p n h w e. record { holds = R.past p n h w e } };

    fn empty() -> Self {
        Entry { holds: R::empty() }
    }

    fn of(from: Record) -> Self {
        Entry { holds: R::of(from) }
    }
}

impl<R: Stored, const T: u8> Row for Entry<R, T> {
    ghost TABLE = { T };

    const TABLE: u8 = T;
}

pub type ReactionTrigger = Entry<LevelReactionImage, 8>;

pub type ReactionUsePort = Entry<PortIndex, 9>;

pub type ReactionEffectPort = Entry<PortIndex, 10>;

pub type ReactionAction = Entry<ActionIndex, 11>;

pub type ReactionMode = Entry<ModeIndex, 12>;

pub type ScopeDescendant = Entry<ScopeIndex, 13>;

pub type ScopeLogicalAction = Entry<ActionIndex, 14>;

pub type ScopeTimerStartup = Entry<TimerStartupImage, 15>;

pub type ScopeResetReaction = Entry<LevelReactionImage, 16>;

pub type ScopeStartupReaction = Entry<LifecycleReactionImage, 17>;

pub type ScopeShutdownReaction = Entry<LifecycleReactionImage, 18>;

pub type StartupAction = Entry<TimerStartupImage, 19>;

pub type TimerStartupAction = Entry<TimerStartupImage, 20>;

pub type ShutdownReaction = Entry<LifecycleReactionImage, 21>;

pub type ShutdownAction = Entry<ActionIndex, 22>;
