// The fields of a record, by their names and in the papers' order: one list a table, by which records are shown and the fields of refusals are found.
ghost use Rattle.std.specs.Prelude.{◌≤◌, length};

use arrayvec::ArrayVec;
use identity::IdentityPlace;
use range::{IndexSpan, SliceRange};
use schema::entries::{
    LevelReactionImage, LifecycleReactionImage, ReactionAction, ReactionEffectPort, ReactionMode,
    ReactionTrigger, ReactionUsePort, ScopeDescendant, ScopeLogicalAction, ScopeResetReaction,
    ScopeShutdownReaction, ScopeStartupReaction, ScopeTimerStartup, TimerStartupImage,
};
use schema::index::{
    ActionIndex, ActionTiming, BindingKind, ModeIndex, PortIndex, RouteDirection, ScopeIndex,
    TimingDomain, Transition,
};
use schema::record::Record;
use schema::row::{Key, Row, Stored};
use schema::rows::{
    ActionImage, DeadlineImage, EnclaveImage, FederateImage, ModeImage, PortImage, ReactionImage,
    ReactorImage, RequiredBindingImage, RouteImage, ScopeImage,
};

// The number that stands for the table of a federate's span, which document 01 gives: the keys of enclaves.
const ENCLAVE_KEYS: u8 = 255;

// What stands in a field: numbers by what they mean.
#[derive(Clone, Copy, Default)]
pub(crate) enum Value {
    #[default]
    Absent,
    Word(&'static str),
    Number(u64),
    Key { table: u8, index: u32 },
    Span { table: u8, span: IndexSpan },
    Identity(IdentityPlace),
}

#[derive(Clone, Copy, Default)]
pub(crate) struct FieldValue {
    pub(crate) name: &'static str,
    pub(crate) value: Value,
}

// Of no record more than a reaction's.
pub(crate) type Fields = ArrayVec<FieldValue, 11>;

fn listed(fields: &[FieldValue]) -> Fields
    requires { length fields.now ≤ 11 }
{
    let mut list = Fields::new();
    list.try_extend_from_slice(fields).unwrap();
    list
}

fn field(name: &'static str, value: Value) -> FieldValue {
    FieldValue { name, value }
}

fn word(n: u32) -> Value {
    Value::Number(u64::from(n))
}

fn some_word(n: Option<u32>) -> Value {
    match n {
        Some(n) => word(n),
        None => Value::Absent,
    }
}

fn some_long(n: Option<u64>) -> Value {
    match n {
        Some(n) => Value::Number(n),
        None => Value::Absent,
    }
}

// A key's type says which table it is of.
fn key<K: Key>(key: K) -> Value {
    Value::Key {
        table: K::Row::TABLE,
        index: key.number(),
    }
}

fn some_key<K: Key>(at: Option<K>) -> Value {
    match at {
        Some(at) => key(at),
        None => Value::Absent,
    }
}

// Rows of a table.
fn part<R: Row>(range: SliceRange) -> Value {
    Value::Span {
        table: R::TABLE,
        span: IndexSpan::from(range),
    }
}

fn yes_or_no(yes: bool) -> Value {
    Value::Word(if yes { "yes" } else { "no" })
}

fn domain(domain: TimingDomain) -> &'static str {
    match domain {
        TimingDomain::Logical => "logical",
        TimingDomain::Physical => "physical",
    }
}

fn transition(transition: Option<Transition>) -> Value {
    match transition {
        Some(Transition::Reset) => Value::Word("reset"),
        Some(Transition::History) => Value::Word("history"),
        None => Value::Absent,
    }
}

fn direction(direction: RouteDirection) -> Value {
    match direction {
        RouteDirection::Inbound => Value::Word("inbound"),
        RouteDirection::Outbound => Value::Word("outbound"),
    }
}

pub(crate) fn binding_kind(kind: BindingKind) -> &'static str {
    match kind {
        BindingKind::StateInitializer => "state initializer",
        BindingKind::Reaction => "reaction",
        BindingKind::Port => "port",
        BindingKind::Action => "action",
    }
}

// The kind of an action's timing, and the field that its D is.
fn timing(timing: ActionTiming) -> (Value, FieldValue) {
    match timing {
        ActionTiming::Standard {
            domain: TimingDomain::Logical,
            min_delay_nanos,
        } => (
            Value::Word("standard logical"),
            field("min_delay_nanos", Value::Number(min_delay_nanos)),
        ),
        ActionTiming::Standard {
            domain: TimingDomain::Physical,
            min_delay_nanos,
        } => (
            Value::Word("standard physical"),
            field("min_delay_nanos", Value::Number(min_delay_nanos)),
        ),
        ActionTiming::Timer { period_nanos } => (
            Value::Word("timer"),
            field("period_nanos", some_long(period_nanos)),
        ),
        ActionTiming::Shutdown => (
            Value::Word("shutdown"),
            field("min_delay_nanos", Value::Absent),
        ),
    }
}

fn federate(row: FederateImage) -> Fields {
    listed(&[
        field("id", Value::Identity(row.id)),
        field("target", Value::Identity(row.target)),
        field("runtime", Value::Identity(row.runtime)),
        field(
            "enclaves",
            Value::Span {
                table: ENCLAVE_KEYS,
                span: row.enclaves.0,
            },
        ),
    ])
}

fn image(row: EnclaveImage) -> Fields {
    let bounds = row.storage_bounds;
    listed(&[
        field("enclave_id", Value::Identity(row.enclave_id)),
        field("state_slots", word(bounds.state_slots)),
        field("action_slots", word(bounds.action_slots)),
        field("event_capacity", word(bounds.event_capacity)),
        field("payload_bytes", Value::Number(bounds.payload_bytes)),
        field("state_bytes", Value::Number(bounds.state_bytes)),
        field("scratch_bytes", Value::Number(bounds.scratch_bytes)),
    ])
}

fn reactor(row: ReactorImage) -> Fields {
    listed(&[
        field("state_binding", key(row.state_binding)),
        field("state_slot", word(row.state_slot)),
        field("root_scope", key(row.root_scope)),
        field(
            "modes",
            Value::Span {
                table: ModeImage::TABLE,
                span: row.modes.0,
            },
        ),
        field("initial_mode", some_key(row.initial_mode)),
        field("bank.index", some_word(row.bank.map(|bank| bank.index))),
        field("bank.total", some_word(row.bank.map(|bank| bank.total))),
    ])
}

fn action(row: ActionImage) -> Fields {
    let (kind, delay) = timing(row.timing);
    listed(&[
        field("timing", kind),
        field("scope", key(row.scope)),
        field("storage_slot", word(row.storage_slot)),
        field("binding", some_key(row.binding)),
        delay,
        field("triggers", part::<ReactionTrigger>(row.triggers)),
    ])
}

fn port(row: PortImage) -> Fields {
    listed(&[
        field("binding", key(row.binding)),
        field("scope", key(row.scope)),
        field("triggers", part::<ReactionTrigger>(row.triggers)),
    ])
}

fn reaction(row: ReactionImage) -> Fields {
    let effect = row.mode_effect;
    listed(&[
        field("external_effect", yes_or_no(row.external_effect)),
        field("reactor", key(row.reactor)),
        field("scope", key(row.scope)),
        field("dependency_level", word(row.dependency_level)),
        field("binding", key(row.binding)),
        field("use_ports", part::<ReactionUsePort>(row.use_ports)),
        field("effect_ports", part::<ReactionEffectPort>(row.effect_ports)),
        field("actions", part::<ReactionAction>(row.actions)),
        field("enabled_modes", part::<ReactionMode>(row.enabled_modes)),
        field(
            "mode_effect.target",
            some_key(effect.map(|effect| effect.target)),
        ),
        field(
            "mode_effect.transition",
            transition(effect.map(|effect| effect.transition)),
        ),
    ])
}

fn mode(row: ModeImage) -> Fields {
    listed(&[
        field("reactor", key(row.reactor)),
        field("scope", key(row.scope)),
    ])
}

fn scope(row: ScopeImage) -> Fields {
    listed(&[
        field("parent", some_key(row.parent)),
        field("reactor", key(row.reactor)),
        field("mode", some_key(row.mode)),
        field("descendants", part::<ScopeDescendant>(row.descendants)),
        field(
            "logical_actions",
            part::<ScopeLogicalAction>(row.logical_actions),
        ),
        field(
            "timer_startups",
            part::<ScopeTimerStartup>(row.timer_startups),
        ),
        field(
            "reset_reactions",
            part::<ScopeResetReaction>(row.reset_reactions),
        ),
        field(
            "startup_reactions",
            part::<ScopeStartupReaction>(row.startup_reactions),
        ),
        field(
            "shutdown_reactions",
            part::<ScopeShutdownReaction>(row.shutdown_reactions),
        ),
    ])
}

fn level(row: LevelReactionImage) -> Fields {
    listed(&[
        field("dependency_level", word(row.level)),
        field("reaction", key(row.reaction)),
    ])
}

fn startup(row: TimerStartupImage) -> Fields {
    listed(&[
        field("action", key(row.action)),
        field(
            "logical_delay_nanos",
            Value::Number(row.logical_delay_nanos),
        ),
    ])
}

fn lifecycle(row: LifecycleReactionImage) -> Fields {
    listed(&[
        field("dependency_level", word(row.reaction.level)),
        field("reaction", key(row.reaction.reaction)),
        field("action", key(row.action)),
    ])
}

fn entry<K: Key>(name: &'static str, at: K) -> Fields {
    listed(&[field(name, key(at))])
}

fn route(row: RouteImage) -> Fields {
    listed(&[
        field("direction", direction(row.direction)),
        field("timing_domain", Value::Word(domain(row.timing_domain))),
        field("boundary", Value::Identity(row.boundary)),
        field("local_port", key(row.local_port)),
        field("delay_nanos", Value::Number(row.delay_nanos)),
    ])
}

fn binding(row: RequiredBindingImage) -> Fields {
    listed(&[
        field("kind", Value::Word(binding_kind(row.kind))),
        field("id", Value::Identity(row.id)),
    ])
}

fn deadline(row: DeadlineImage) -> Fields {
    listed(&[
        field("reaction", key(row.reaction)),
        field("nanos", Value::Number(row.nanos)),
    ])
}

// The fields of a list table's record, by the papers' numbers, since the number of a table of entries is a parameter of their type; none for a table that is
// no list.
fn list_fields(table: u8, record: Record) -> Fields {
    match table {
        8 | 16 => level(LevelReactionImage::of(record)),
        9 | 10 => entry("port", PortIndex::of(record)),
        11 | 14 | 22 => entry("action", ActionIndex::of(record)),
        12 => entry("mode", ModeIndex::of(record)),
        13 => entry("scope", ScopeIndex::of(record)),
        15 | 19 | 20 => startup(TimerStartupImage::of(record)),
        17 | 18 | 21 => lifecycle(LifecycleReactionImage::of(record)),
        _ => Fields::new(),
    }
}

// The fields of a record by its table number; none for a number that is no table's.
pub(crate) fn fields(record: Record) -> Fields {
    match record.table() {
        FederateImage::TABLE => federate(FederateImage::of(record)),
        EnclaveImage::TABLE => image(EnclaveImage::of(record)),
        ReactorImage::TABLE => reactor(ReactorImage::of(record)),
        ActionImage::TABLE => action(ActionImage::of(record)),
        PortImage::TABLE => port(PortImage::of(record)),
        ReactionImage::TABLE => reaction(ReactionImage::of(record)),
        ModeImage::TABLE => mode(ModeImage::of(record)),
        ScopeImage::TABLE => scope(ScopeImage::of(record)),
        RouteImage::TABLE => route(RouteImage::of(record)),
        RequiredBindingImage::TABLE => binding(RequiredBindingImage::of(record)),
        DeadlineImage::TABLE => deadline(DeadlineImage::of(record)),
        table => list_fields(table, record),
    }
}

// The value of the field of that name.
pub(crate) fn value_of(record: Record, name: &str) -> Option<Value> {
    let list = fields(record);
    for field in list.as_slice() {
        if field.name == name {
            return Some(field.value);
        }
    }
    None
}
