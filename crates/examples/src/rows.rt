// The rows of the cases: each is its empty row but for what differs.
use identity::IdentityPlace;
use range::{EnclaveSpan, IndexSpan, ModeSpan, SliceRange};
use schema::index::{
    ActionTiming, BankInfoImage, BindingKind, BindingSlotIndex, ModeIndex, ReactionIndex,
    ReactorIndex, RouteDirection, ScopeIndex,
};
use schema::row::Stored;
use schema::rows::{
    ActionImage, DeadlineImage, EnclaveImage, FederateImage, ModeImage, PortImage, ReactionImage,
    ReactorImage, RequiredBindingImage, RouteImage, ScopeImage, StorageBounds,
};

// A place in the batch text.
fn place(start: u32, len: u32) -> IdentityPlace {
    IdentityPlace {
        house: false,
        start,
        len,
    }
}

// A federate whose id, target and runtime are one byte of the batch text, with the span of its enclaves.
pub fn federate(name: u32, start: u64, len: u64) -> FederateImage {
    FederateImage {
        id: place(name, 1),
        target: place(name, 1),
        runtime: place(name, 1),
        enclaves: EnclaveSpan(IndexSpan { start, len }),
    }
}

pub fn enclave(start: u32, len: u32, state_slots: u32, action_slots: u32) -> EnclaveImage {
    EnclaveImage {
        enclave_id: place(start, len),
        storage_bounds: StorageBounds {
            state_slots,
            action_slots,
            ..EnclaveImage::empty().storage_bounds
        },
    }
}

// S's enclave, `a` with one state slot.
pub fn enclave_s() -> EnclaveImage {
    enclave(0, 1, 1, 0)
}

// S's enclave with one action slot.
pub fn enclave_one_action() -> EnclaveImage {
    enclave(0, 1, 1, 1)
}

pub fn reactor(root_scope: u32, start: u64, len: u64) -> ReactorImage {
    ReactorImage {
        root_scope: ScopeIndex::new(root_scope),
        modes: ModeSpan(IndexSpan { start, len }),
        ..ReactorImage::empty()
    }
}

pub fn bank_reactor(index: u32, total: u32) -> ReactorImage {
    ReactorImage {
        bank: Some(BankInfoImage { index, total }),
        ..ReactorImage::empty()
    }
}

// A timer with binding 0.
pub fn bound_timer() -> ActionImage {
    ActionImage {
        binding: Some(BindingSlotIndex::new(0)),
        timing: ActionTiming::Timer { period_nanos: None },
        ..ActionImage::empty()
    }
}

// A standard action with a binding and one trigger.
pub fn triggering_action(binding: u32) -> ActionImage {
    ActionImage {
        binding: Some(BindingSlotIndex::new(binding)),
        triggers: SliceRange { start: 0, len: 1 },
        ..ActionImage::empty()
    }
}

pub fn port(binding: u32, triggers: u32) -> PortImage {
    PortImage {
        binding: BindingSlotIndex::new(binding),
        triggers: SliceRange {
            start: 0,
            len: triggers,
        },
        ..PortImage::empty()
    }
}

pub fn reaction(binding: u32) -> ReactionImage {
    ReactionImage {
        binding: BindingSlotIndex::new(binding),
        ..ReactionImage::empty()
    }
}

pub fn mode(reactor: u32, scope: u32) -> ModeImage {
    ModeImage {
        reactor: ReactorIndex::new(reactor),
        scope: ScopeIndex::new(scope),
    }
}

pub fn scope(reactor: u32) -> ScopeImage {
    ScopeImage {
        reactor: ReactorIndex::new(reactor),
        ..ScopeImage::empty()
    }
}

pub fn scope_under(parent: u32) -> ScopeImage {
    ScopeImage {
        parent: Some(ScopeIndex::new(parent)),
        ..ScopeImage::empty()
    }
}

// The scope of a mode of reactor 0.
pub fn mode_scope(mode: u32) -> ScopeImage {
    ScopeImage {
        mode: Some(ModeIndex::new(mode)),
        ..ScopeImage::empty()
    }
}

// A half of the boundary whose name is one byte of the batch text.
pub fn route(start: u32, direction: RouteDirection) -> RouteImage {
    RouteImage {
        boundary: place(start, 1),
        direction,
        ..RouteImage::empty()
    }
}

// A binding whose name is one byte of the batch text.
pub fn binding(start: u32, kind: BindingKind) -> RequiredBindingImage {
    RequiredBindingImage {
        id: place(start, 1),
        kind,
    }
}

// S's binding, the state initializer `b`.
pub fn binding_s() -> RequiredBindingImage {
    binding(1, BindingKind::StateInitializer)
}

pub fn deadline(reaction: u32, nanos: u64) -> DeadlineImage {
    DeadlineImage {
        reaction: ReactionIndex::new(reaction),
        nanos,
    }
}
