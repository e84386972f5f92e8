// The record of a row: the table number, the bits and the kind, the fields, and zeros after them; and packs of records.
ghost use Rattle.std.specs.Prelude.{◌≡◌, ◌+◌, ◌*◌, ◌≤◌, ◌↔◌, ◌++◌, ℕ, List, length, take, drop, flat_map, IsOk, OnOk, OnErr};
ghost use Rattle.arrayvec.specs.ArrayVec.{array_vec_len};
ghost use Rattle.cases.specs.Fields.{timing_kind, has_period, timing_nanos};
ghost use Rattle.cases.specs.Records.{federate_record, enclave_record, reactor_record, action_record, port_record, reaction_record, mode_record, scope_record, trigger_record, route_record, binding_record, deadline_record};

use crate::builder::RecordBuilder;
use crate::fields::{bits, three_bits};
use arrayvec::{ArrayVec, CapacityError};
use schema::entries::ReactionTrigger;
use schema::index::{ActionTiming, BankInfoImage, RouteDirection, TimingDomain};
use schema::row::Row;
use schema::rows::{
    ActionImage, DeadlineImage, EnclaveImage, FederateImage, ModeImage, PortImage, ReactionImage,
    ReactorImage, RequiredBindingImage, RouteImage, ScopeImage,
};

// A record of a pack.
pub type RecordBytes = [u8; 64];

// A row that is written as a record. One block for each type, as in `schema`: no macro may write them, and each has its own fields. Byte 2 of a kind is
// its place among the variants (`as u8`), in the order of document 01.
pub trait Recorded: Row {
    ghost bytes: { Self → List ℕ };

    fn record(self) -> RecordBytes
        ensures { result ≡ bytes self };
}

impl Recorded for FederateImage {
    ghost bytes = { federate_record };

    fn record(self) -> RecordBytes {
        let (id, target, runtime) = (self.id, self.target, self.runtime);
        let bits = three_bits(id.house, target.house, runtime.house);
        RecordBuilder::new(Self::TABLE, bits, 0)
            .place(id)
            .place(target)
            .place(runtime)
            .span(self.enclaves.0)
            .build()
    }
}

impl Recorded for EnclaveImage {
    ghost bytes = { enclave_record };

    fn record(self) -> RecordBytes {
        let (id, bounds) = (self.enclave_id, self.storage_bounds);
        RecordBuilder::new(Self::TABLE, bits(id.house, false), 0)
            .place(id)
            .word(bounds.state_slots)
            .word(bounds.action_slots)
            .word(bounds.event_capacity)
            .long(bounds.payload_bytes)
            .long(bounds.state_bytes)
            .long(bounds.scratch_bytes)
            .build()
    }
}

impl Recorded for ReactorImage {
    ghost bytes = { reactor_record };

    fn record(self) -> RecordBytes {
        let bits = bits(self.initial_mode.is_some(), self.bank.is_some());
        let bank = self.bank.unwrap_or(BankInfoImage { index: 0, total: 0 });
        RecordBuilder::new(Self::TABLE, bits, 0)
            .word(self.state_binding.0)
            .word(self.state_slot)
            .word(self.root_scope.0)
            .span(self.modes.0)
            .word(self.initial_mode.map_or(0, |mode| mode.0))
            .word(bank.index)
            .word(bank.total)
            .build()
    }
}

impl Recorded for ActionImage {
    ghost bytes = { action_record };

    fn record(self) -> RecordBytes {
        let (kind, has_period, nanos) = timing_fields(self.timing);
        RecordBuilder::new(Self::TABLE, bits(self.binding.is_some(), has_period), kind)
            .word(self.scope.0)
            .word(self.storage_slot)
            .word(self.binding.map_or(0, |binding| binding.0))
            .long(nanos)
            .range(self.triggers)
            .build()
    }
}

impl Recorded for PortImage {
    ghost bytes = { port_record };

    fn record(self) -> RecordBytes {
        RecordBuilder::new(Self::TABLE, 0, 0)
            .word(self.binding.0)
            .word(self.scope.0)
            .range(self.triggers)
            .build()
    }
}

impl Recorded for ReactionImage {
    ghost bytes = { reaction_record };

    fn record(self) -> RecordBytes {
        let effect = self.mode_effect;
        let bits = bits(self.external_effect, effect.is_some());
        let kind = effect.map_or(0, |effect| effect.transition as u8);
        RecordBuilder::new(Self::TABLE, bits, kind)
            .word(self.reactor.0)
            .word(self.scope.0)
            .word(self.dependency_level)
            .word(self.binding.0)
            .range(self.use_ports)
            .range(self.effect_ports)
            .range(self.actions)
            .range(self.enabled_modes)
            .word(effect.map_or(0, |effect| effect.target.0))
            .build()
    }
}

impl Recorded for ModeImage {
    ghost bytes = { mode_record };

    fn record(self) -> RecordBytes {
        let ModeImage { reactor, scope } = self;
        RecordBuilder::new(Self::TABLE, 0, 0)
            .word(reactor.0)
            .word(scope.0)
            .build()
    }
}

impl Recorded for ScopeImage {
    ghost bytes = { scope_record };

    fn record(self) -> RecordBytes {
        let bits = bits(self.parent.is_some(), self.mode.is_some());
        RecordBuilder::new(Self::TABLE, bits, 0)
            .word(self.parent.map_or(0, |parent| parent.0))
            .word(self.reactor.0)
            .word(self.mode.map_or(0, |mode| mode.0))
            .range(self.descendants)
            .range(self.logical_actions)
            .range(self.timer_startups)
            .range(self.reset_reactions)
            .range(self.startup_reactions)
            .range(self.shutdown_reactions)
            .build()
    }
}

impl Recorded for ReactionTrigger {
    ghost bytes = { λ row. trigger_record row.holds };

    fn record(self) -> RecordBytes {
        RecordBuilder::new(Self::TABLE, 0, 0)
            .word(self.holds.level)
            .word(self.holds.reaction.0)
            .build()
    }
}

impl Recorded for RouteImage {
    ghost bytes = { route_record };

    fn record(self) -> RecordBytes {
        let id = self.boundary;
        let outbound = self.direction == RouteDirection::Outbound;
        let physical = self.timing_domain == TimingDomain::Physical;
        RecordBuilder::new(Self::TABLE, bits(id.house, false), bits(outbound, physical))
            .place(id)
            .word(self.local_port.0)
            .long(self.delay_nanos)
            .build()
    }
}

impl Recorded for RequiredBindingImage {
    ghost bytes = { binding_record };

    fn record(self) -> RecordBytes {
        RecordBuilder::new(Self::TABLE, bits(self.id.house, false), self.kind as u8)
            .place(self.id)
            .build()
    }
}

impl Recorded for DeadlineImage {
    ghost bytes = { deadline_record };

    fn record(self) -> RecordBytes {
        RecordBuilder::new(Self::TABLE, 0, 0)
            .word(self.reaction.0)
            .long(self.nanos)
            .build()
    }
}

// An action's kind, its period bit, and its minimum delay or period: three parts of a record, as document 01 has them.
fn timing_fields(timing: ActionTiming) -> (u8, bool, u64)
    ensures kind { result.0 ≡ timing_kind timing }
    ensures period { result.1 ≡ has_period timing }
    ensures nanos { result.2 ≡ timing_nanos timing }
{
    match timing {
        ActionTiming::Standard {
            domain,
            min_delay_nanos,
        } => (domain as u8, false, min_delay_nanos),
        ActionTiming::Timer { period_nanos } => {
            (2, period_nanos.is_some(), period_nanos.unwrap_or(0))
        }
        ActionTiming::Shutdown => (3, false, 0),
    }
}

// Puts a record into a pack as record n. All other bytes are as before.
pub fn put(pack: &mut [u8], n: usize, bytes: RecordBytes)
    requires { n * 64 + 64 ≤ length pack.old }
    ensures { pack.new ≡ take (n * 64) pack.old ++ (bytes ++ drop (n * 64 + 64) pack.old) }
{
    pack[n * 64..n * 64 + 64].copy_from_slice(&bytes);
}

// Room for a pack of 32 records.
pub type Pack = ArrayVec<u8, 2048>;

// Puts records into a pack, behind those that it has; none of them where there is no room for all.
pub fn append(pack: &mut Pack, records: &[RecordBytes]) -> Result<(), CapacityError>
    ensures fits { IsOk result ↔ (array_vec_len pack.old + length records.now * 64 ≤ 2048) }
    ensures ok { OnOk result (pack.new.items ≡ pack.old.items ++ flat_map (λ bytes. bytes) records.now) }
    ensures err { OnErr result (pack.new ≡ pack.old) }
{
    pack.try_extend_from_slice(records.as_flattened())
}
