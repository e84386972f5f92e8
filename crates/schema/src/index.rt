// The index types, one for each dense table, and the kinds that stand in a row.
ghost use Rattle.std.specs.Prelude.{◌≡◌, ◌<◌, ◌^◌};
ghost use Rattle.schema.specs.Rows.{transition_of, timing_of, kind_of, direction_of, domain_of};
ghost use Rattle.schema.specs.Records.{direction_number};

// So many keys there are: a key is a number of 32 bits.
pub const KEYS: u64 = 0x1_0000_0000;

// A key of table T: a key of one table is none of another's.
#[derive(Clone, Copy, Default, PartialEq, Eq, PartialOrd, Ord)]
pub struct Index<const T: u8>(pub u32);

pub type ReactorIndex = Index<2>;

pub type ActionIndex = Index<3>;

pub type PortIndex = Index<4>;

pub type ReactionIndex = Index<5>;

pub type ModeIndex = Index<6>;

pub type ScopeIndex = Index<7>;

pub type BindingSlotIndex = Index<24>;

impl<const T: u8> Index<T> {
    pub fn new(number: u32) -> Self
        ensures { result ≡ record { 0 = number } }
    {
        Index(number)
    }
}

#[derive(Clone, Copy)]
pub struct BankInfoImage {
    pub index: u32,
    pub total: u32,
}

// How a reaction's mode effect enters its target.
#[derive(Clone, Copy)]
pub enum Transition {
    Reset,
    History,
}

#[derive(Clone, Copy)]
pub struct ModeEffect {
    pub transition: Transition,
    pub target: ModeIndex,
}

#[derive(Clone, Copy, Default, PartialEq, Eq)]
pub enum TimingDomain {
    #[default]
    Logical,
    Physical,
}

#[derive(Clone, Copy)]
pub enum ActionTiming {
    Standard {
        domain: TimingDomain,
        min_delay_nanos: u64,
    },
    Timer {
        period_nanos: Option<u64>,
    },
    Shutdown,
}

#[derive(Clone, Copy, Debug, Default, PartialEq, Eq)]
pub enum RouteDirection {
    #[default]
    Inbound,
    Outbound,
}

#[derive(Clone, Copy, Default, PartialEq, Eq)]
pub enum BindingKind {
    #[default]
    StateInitializer,
    Reaction,
    Port,
    Action,
}

// Kinds as byte 2 has them. The packing rules let no other number by; here each number above the last stands for it.
impl From<u8> for Transition {
    ghost from_gives = { λ k r. r ≡ transition_of k };

    fn from(kind: u8) -> Transition {
        match kind {
            0 => Transition::Reset,
            _ => Transition::History,
        }
    }
}

impl From<u8> for BindingKind {
    ghost from_gives = { λ k r. r ≡ kind_of k };

    fn from(kind: u8) -> BindingKind {
        match kind {
            0 => BindingKind::StateInitializer,
            1 => BindingKind::Reaction,
            2 => BindingKind::Port,
            _ => BindingKind::Action,
        }
    }
}

impl ActionTiming {
    // By byte 2, the period bit, and the minimum delay or the period: three parts of a record, as document 01 has them.
    pub fn of(kind: u8, period: bool, nanos: u64) -> ActionTiming
        ensures { result ≡ timing_of kind period nanos }
    {
        match kind {
            0 => ActionTiming::Standard {
                domain: TimingDomain::Logical,
                min_delay_nanos: nanos,
            },
            1 => ActionTiming::Standard {
                domain: TimingDomain::Physical,
                min_delay_nanos: nanos,
            },
            2 => ActionTiming::Timer {
                period_nanos: period.then_some(nanos),
            },
            _ => ActionTiming::Shutdown,
        }
    }
}

// By the outbound bit, and back.
impl From<bool> for RouteDirection {
    ghost from_gives = { λ b r. r ≡ direction_of b };

    fn from(outbound: bool) -> RouteDirection {
        if outbound {
            RouteDirection::Outbound
        } else {
            RouteDirection::Inbound
        }
    }
}

impl From<RouteDirection> for u8 {
    ghost from_gives = { λ direction bit. bit ≡ direction_number direction };

    fn from(direction: RouteDirection) -> u8 {
        direction as u8
    }
}

// By the physical bit.
impl From<bool> for TimingDomain {
    ghost from_gives = { λ b r. r ≡ domain_of b };

    fn from(physical: bool) -> TimingDomain {
        if physical {
            TimingDomain::Physical
        } else {
            TimingDomain::Logical
        }
    }
}
