// The rows of tables 0 to 7 and 23 to 25: each with its table number, its empty row, and its reader.
#![tactic(auto, unfolding(crate::specs::Rows::federate_at, crate::specs::Rows::enclave_at, crate::specs::Rows::reactor_at, crate::specs::Rows::action_at, crate::specs::Rows::port_at, crate::specs::Rows::reaction_at, crate::specs::Rows::mode_at, crate::specs::Rows::scope_at, crate::specs::Rows::route_at, crate::specs::Rows::binding_at, crate::specs::Rows::deadline_at))]

ghost use Rattle.std.specs.Prelude.{◌≡◌};
ghost use Rattle.schema.specs.Rows.{empty, federate_of, federate_at, enclave_of, enclave_at, reactor_of, reactor_at, action_of, action_at, port_of, port_at, reaction_of, reaction_at, mode_of, mode_at, scope_of, scope_at, route_of, route_at, binding_of, binding_at, deadline_of, deadline_at};
ghost use Rattle.schema.specs.Past.{federate_past, enclave_past, reactor_past, action_past, port_past, reaction_past, mode_past, scope_past, route_past, binding_past, deadline_past};

use crate::index::{
    ActionTiming, BankInfoImage, BindingKind, BindingSlotIndex, ModeEffect, ModeIndex, PortIndex,
    ReactionIndex, ReactorIndex, RouteDirection, ScopeIndex, TimingDomain, Transition,
};
use crate::record::{Record, has_bit};
use crate::row::{Row, Stored};
use identity::IdentityPlace;
use range::{EnclaveSpan, IndexSpan, ModeSpan, SliceRange};

#[derive(Clone, Copy, Default)]
pub struct FederateImage {
    pub id: IdentityPlace,
    pub target: IdentityPlace,
    pub runtime: IdentityPlace,
    pub enclaves: EnclaveSpan,
}

// The six storage numbers of an enclave.
#[derive(Clone, Copy, Default)]
pub struct StorageBounds {
    pub state_slots: u32,
    pub action_slots: u32,
    pub event_capacity: u32,
    pub payload_bytes: u64,
    pub state_bytes: u64,
    pub scratch_bytes: u64,
}

#[derive(Clone, Copy, Default)]
pub struct EnclaveImage {
    pub enclave_id: IdentityPlace,
    pub storage_bounds: StorageBounds,
}

#[derive(Clone, Copy, Default)]
pub struct ReactorImage {
    pub state_binding: BindingSlotIndex,
    pub state_slot: u32,
    pub root_scope: ScopeIndex,
    pub modes: ModeSpan,
    pub initial_mode: Option<ModeIndex>,
    pub bank: Option<BankInfoImage>,
}

#[derive(Clone, Copy)]
pub struct ActionImage {
    pub scope: ScopeIndex,
    pub storage_slot: u32,
    pub binding: Option<BindingSlotIndex>,
    pub timing: ActionTiming,
    pub triggers: SliceRange,
}

#[derive(Clone, Copy, Default)]
pub struct PortImage {
    pub binding: BindingSlotIndex,
    pub scope: ScopeIndex,
    pub triggers: SliceRange,
}

#[derive(Clone, Copy, Default)]
pub struct ReactionImage {
    pub external_effect: bool,
    pub reactor: ReactorIndex,
    pub scope: ScopeIndex,
    pub dependency_level: u32,
    pub binding: BindingSlotIndex,
    pub use_ports: SliceRange,
    pub effect_ports: SliceRange,
    pub actions: SliceRange,
    pub enabled_modes: SliceRange,
    pub mode_effect: Option<ModeEffect>,
}

#[derive(Clone, Copy, Default)]
pub struct ModeImage {
    pub reactor: ReactorIndex,
    pub scope: ScopeIndex,
}

#[derive(Clone, Copy, Default)]
pub struct ScopeImage {
    pub parent: Option<ScopeIndex>,
    pub reactor: ReactorIndex,
    pub mode: Option<ModeIndex>,
    pub descendants: SliceRange,
    pub logical_actions: SliceRange,
    pub timer_startups: SliceRange,
    pub reset_reactions: SliceRange,
    pub startup_reactions: SliceRange,
    pub shutdown_reactions: SliceRange,
}

#[derive(Clone, Copy, Default)]
pub struct RouteImage {
    pub boundary: IdentityPlace,
    pub local_port: PortIndex,
    pub direction: RouteDirection,
    pub timing_domain: TimingDomain,
    pub delay_nanos: u64,
}

#[derive(Clone, Copy, Default)]
pub struct RequiredBindingImage {
    pub id: IdentityPlace,
    pub kind: BindingKind,
}

// The deadline of a reaction.
#[derive(Clone, Copy, Default)]
pub struct DeadlineImage {
    pub reaction: ReactionIndex,
    pub nanos: u64,
}

// Each row's reader beside its table, one block for each type: no macro may write them, and each has its own fields.
impl Stored for FederateImage {
    ghost at = { federate_at };

    ghost zeros = { empty federate_of };

    ghost past = { federate_past };

    fn empty() -> Self {
        Self::default()
    }

    fn of(from: Record) -> Self {
        FederateImage {
            id: from.place(from.has(0), 4),
            target: from.place(from.has(1), 12),
            runtime: from.place(from.has(2), 20),
            enclaves: EnclaveSpan(from.span(28)),
        }
    }
}

impl Row for FederateImage {
    ghost TABLE = { 0 };

    const TABLE: u8 = 0;
}

impl Stored for EnclaveImage {
    ghost at = { enclave_at };

    ghost zeros = { empty enclave_of };

    ghost past = { enclave_past };

    fn empty() -> Self {
        Self::default()
    }

    fn of(from: Record) -> Self {
        EnclaveImage {
            enclave_id: from.place(from.has(0), 4),
            storage_bounds: StorageBounds {
                state_slots: from.word(12),
                action_slots: from.word(16),
                event_capacity: from.word(20),
                payload_bytes: from.long(24),
                state_bytes: from.long(32),
                scratch_bytes: from.long(40),
            },
        }
    }
}

impl Row for EnclaveImage {
    ghost TABLE = { 1 };

    const TABLE: u8 = 1;
}

impl Stored for ReactorImage {
    ghost at = { reactor_at };

    ghost zeros = { empty reactor_of };

    ghost past = { reactor_past };

    fn empty() -> Self {
        Self::default()
    }

    fn of(from: Record) -> Self {
        ReactorImage {
            state_binding: BindingSlotIndex::new(from.word(4)),
            state_slot: from.word(8),
            root_scope: ScopeIndex::new(from.word(12)),
            modes: ModeSpan(from.span(16)),
            initial_mode: from.has(0).then_some(ModeIndex::new(from.word(32))),
            bank: from.has(1).then_some(BankInfoImage {
                index: from.word(36),
                total: from.word(40),
            }),
        }
    }
}

impl Row for ReactorImage {
    ghost TABLE = { 2 };

    const TABLE: u8 = 2;
}

impl Stored for ActionImage {
    ghost at = { action_at };

    ghost zeros = { empty action_of };

    ghost past = { action_past };

    // By hand: the first kind of timing has a delay, so that `ActionTiming` derives no `Default`, and an impl of that would be as long as this.
    fn empty() -> Self {
        ActionImage {
            scope: ScopeIndex::new(0),
            storage_slot: 0,
            binding: None,
            timing: ActionTiming::Standard {
                domain: TimingDomain::Logical,
                min_delay_nanos: 0,
            },
            triggers: SliceRange::default(),
        }
    }

    fn of(from: Record) -> Self {
        ActionImage {
            scope: ScopeIndex::new(from.word(4)),
            storage_slot: from.word(8),
            binding: from.has(0).then_some(BindingSlotIndex::new(from.word(12))),
            timing: ActionTiming::of(from.byte(2), from.has(1), from.long(16)),
            triggers: from.range(24),
        }
    }
}

impl Row for ActionImage {
    ghost TABLE = { 3 };

    const TABLE: u8 = 3;
}

impl Stored for PortImage {
    ghost at = { port_at };

    ghost zeros = { empty port_of };

    ghost past = { port_past };

    fn empty() -> Self {
        Self::default()
    }

    fn of(from: Record) -> Self {
        PortImage {
            binding: BindingSlotIndex::new(from.word(4)),
            scope: ScopeIndex::new(from.word(8)),
            triggers: from.range(12),
        }
    }
}

impl Row for PortImage {
    ghost TABLE = { 4 };

    const TABLE: u8 = 4;
}

impl Stored for ReactionImage {
    ghost at = { reaction_at };

    ghost zeros = { empty reaction_of };

    ghost past = { reaction_past };

    fn empty() -> Self {
        Self::default()
    }

    fn of(from: Record) -> Self {
        ReactionImage {
            external_effect: from.has(0),
            reactor: ReactorIndex::new(from.word(4)),
            scope: ScopeIndex::new(from.word(8)),
            dependency_level: from.word(12),
            binding: BindingSlotIndex::new(from.word(16)),
            use_ports: from.range(20),
            effect_ports: from.range(28),
            actions: from.range(36),
            enabled_modes: from.range(44),
            mode_effect: from.has(1).then_some(ModeEffect {
                transition: Transition::from(from.byte(2)),
                target: ModeIndex::new(from.word(52)),
            }),
        }
    }
}

impl Row for ReactionImage {
    ghost TABLE = { 5 };

    const TABLE: u8 = 5;
}

impl Stored for ModeImage {
    ghost at = { mode_at };

    ghost zeros = { empty mode_of };

    ghost past = { mode_past };

    fn empty() -> Self {
        Self::default()
    }

    fn of(from: Record) -> Self {
        ModeImage {
            reactor: ReactorIndex::new(from.word(4)),
            scope: ScopeIndex::new(from.word(8)),
        }
    }
}

impl Row for ModeImage {
    ghost TABLE = { 6 };

    const TABLE: u8 = 6;
}

impl Stored for ScopeImage {
    ghost at = { scope_at };

    ghost zeros = { empty scope_of };

    ghost past = { scope_past };

    fn empty() -> Self {
        Self::default()
    }

    fn of(from: Record) -> Self {
        ScopeImage {
            parent: from.has(0).then_some(ScopeIndex::new(from.word(4))),
            reactor: ReactorIndex::new(from.word(8)),
            mode: from.has(1).then_some(ModeIndex::new(from.word(12))),
            descendants: from.range(16),
            logical_actions: from.range(24),
            timer_startups: from.range(32),
            reset_reactions: from.range(40),
            startup_reactions: from.range(48),
            shutdown_reactions: from.range(56),
        }
    }
}

impl Row for ScopeImage {
    ghost TABLE = { 7 };

    const TABLE: u8 = 7;
}

impl Stored for RouteImage {
    ghost at = { route_at };

    ghost zeros = { empty route_of };

    ghost past = { route_past };

    fn empty() -> Self {
        Self::default()
    }

    fn of(from: Record) -> Self {
        let kinds = from.byte(2);
        RouteImage {
            boundary: from.place(from.has(0), 4),
            local_port: PortIndex::new(from.word(12)),
            direction: RouteDirection::from(has_bit(kinds, 0)),
            timing_domain: TimingDomain::from(has_bit(kinds, 1)),
            delay_nanos: from.long(16),
        }
    }
}

impl Row for RouteImage {
    ghost TABLE = { 23 };

    const TABLE: u8 = 23;
}

impl Stored for RequiredBindingImage {
    ghost at = { binding_at };

    ghost zeros = { empty binding_of };

    ghost past = { binding_past };

    fn empty() -> Self {
        Self::default()
    }

    fn of(from: Record) -> Self {
        RequiredBindingImage {
            id: from.place(from.has(0), 4),
            kind: BindingKind::from(from.byte(2)),
        }
    }
}

impl Row for RequiredBindingImage {
    ghost TABLE = { 24 };

    const TABLE: u8 = 24;
}

impl Stored for DeadlineImage {
    ghost at = { deadline_at };

    ghost zeros = { empty deadline_of };

    ghost past = { deadline_past };

    fn empty() -> Self {
        Self::default()
    }

    fn of(from: Record) -> Self {
        DeadlineImage {
            reaction: ReactionIndex::new(from.word(4)),
            nanos: from.long(8),
        }
    }
}

impl Row for DeadlineImage {
    ghost TABLE = { 25 };

    const TABLE: u8 = 25;
}
