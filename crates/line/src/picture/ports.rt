// What becomes of what reactions write: which ports are written, read, and lead to another station.
use crate::picture::station::{LIMIT, end_in, has};
use range::SliceRange;
use schema::entries::{ReactionEffectPort, ReactionUsePort};
use schema::index::{PortIndex, ReactionIndex, RouteDirection};
use schema::lent::Enclave;
use schema::row::Row;
use schema::rows::{ReactionImage, RouteImage};

// What a write to a port comes to. Where nothing is triggered by the port, it is sent to another station, or only read by reactions that something
// else triggers, or nothing is ever scheduled because of it.
#[derive(Clone, Copy, PartialEq, Eq)]
pub(crate) enum Fate {
    Triggers,
    Sent,
    OnlyRead,
    NeverScheduled,
}

// By port.
#[derive(Drop)]
pub(crate) struct Ports {
    written: [bool; LIMIT],
    read: [bool; LIMIT],
    sent: [bool; LIMIT],
}

fn get(flags: &[bool], port: PortIndex) -> bool {
    flags.get(port.0 as usize).copied().unwrap_or(false)
}

fn set(flags: &mut [bool], port: PortIndex) {
    if let Some(flag) = flags.get_mut(port.0 as usize) {
        *flag = true;
    }
}

fn set_effects(e: &Enclave, range: SliceRange, flags: &mut [bool]) {
    for k in range.start..end_in(e, ReactionEffectPort::TABLE, range) {
        let entry: ReactionEffectPort = e.row_at(k as usize);
        set(flags, entry.holds);
    }
}

fn set_uses(e: &Enclave, range: SliceRange, flags: &mut [bool]) {
    for k in range.start..end_in(e, ReactionUsePort::TABLE, range) {
        let entry: ReactionUsePort = e.row_at(k as usize);
        set(flags, entry.holds);
    }
}

fn set_of_reactions(e: &Enclave, written: &mut [bool], read: &mut [bool]) {
    for i in 0..e.rows(ReactionImage::TABLE) {
        let row = e.row(ReactionIndex::new(i));
        set_effects(e, row.effect_ports, written);
        set_uses(e, row.use_ports, read);
    }
}

fn set_of_routes(e: &Enclave, sent: &mut [bool]) {
    for i in 0..e.rows(RouteImage::TABLE) {
        let row: RouteImage = e.row_at(i as usize);
        if row.direction == RouteDirection::Outbound {
            set(sent, row.local_port);
        }
    }
}

impl Ports {
    pub(crate) fn of(e: &Enclave) -> Ports {
        let mut written = [false; LIMIT];
        let mut read = [false; LIMIT];
        let mut sent = [false; LIMIT];
        set_of_reactions(e, &mut written, &mut read);
        set_of_routes(e, &mut sent);
        Ports {
            written,
            read,
            sent,
        }
    }

    // Whether some reaction writes a port.
    pub(crate) fn is_written(&self, port: PortIndex) -> bool {
        get(&self.written, port)
    }

    // What a write to a port comes to; of one that is missing nothing is said.
    pub(crate) fn fate(&self, e: &Enclave, port: PortIndex) -> Fate {
        if !has(e, port) || 0 < e.row(port).triggers.len {
            Fate::Triggers
        } else if get(&self.sent, port) {
            Fate::Sent
        } else if get(&self.read, port) {
            Fate::OnlyRead
        } else {
            Fate::NeverScheduled
        }
    }
}
