// The names that documents 01 and 02 give to their numbers, as explain/names.txt has them.
use schema::lent::TABLES;
use std::io;
use std::io::Write;

// By table number, from 0 on.
static TABLE_NAMES: [&str; TABLES] = [
    "federate",
    "image",
    "reactors",
    "actions",
    "ports",
    "reactions",
    "modes",
    "scopes",
    "reaction_triggers",
    "reaction_use_ports",
    "reaction_effect_ports",
    "reaction_actions",
    "reaction_modes",
    "scope_descendants",
    "scope_logical_actions",
    "scope_timer_startups",
    "scope_reset_reactions",
    "scope_startup_reactions",
    "scope_shutdown_reactions",
    "startup_actions",
    "timer_startup_actions",
    "shutdown_reactions",
    "shutdown_actions",
    "routes",
    "required_bindings",
    "deadlines",
];

// By field number, from 1 on.
static FIELDS: [&str; 35] = [
    "root_reactor",
    "state_binding",
    "root_scope",
    "modes",
    "initial_mode",
    "scope",
    "binding",
    "triggers",
    "reactor",
    "scope.reactor",
    "mode_effect.target",
    "mode_effect.target.reactor",
    "use_ports",
    "effect_ports",
    "actions",
    "enabled_modes",
    "scope.mode",
    "reactor.modes",
    "parent",
    "mode",
    "descendants",
    "logical_actions",
    "timer_startups",
    "reset_reactions",
    "startup_reactions",
    "shutdown_reactions",
    "reaction",
    "dependency_level",
    "action",
    "port",
    "enabled_modes.reactor",
    "local_port",
    "enclaves",
    "timing_domain",
    "delay_nanos",
];

// By number of identity kind, from 1 on.
static KINDS: [&str; 6] = [
    "federate", "target", "runtime", "enclave", "boundary", "binding",
];

static DIRECTIONS: [&str; 2] = ["inbound", "outbound"];

static TEXTS: [&str; 2] = ["batch.txt", "house.txt"];

// What a number stands for.
#[derive(Clone, Copy)]
pub(crate) enum Named {
    Table,
    Field,
    Kind,
    Direction,
    Text,
    Slot,
    Ownership,
}

// In the order of explain/names.txt.
const ALL: [Named; 7] = [
    Named::Table,
    Named::Field,
    Named::Kind,
    Named::Direction,
    Named::Text,
    Named::Slot,
    Named::Ownership,
];

// The name at a place of a list.
fn nth(names: &[&'static str], place: u64) -> Option<&'static str> {
    names.get(place as usize).copied()
}

// Which slots a table uses.
fn slot(table: u64) -> Option<&'static str> {
    match table {
        2 => Some("state"),
        3 => Some("action"),
        _ => None,
    }
}

// What refusal 17 finds wrong with a field.
fn ownership(field: u64) -> Option<&'static str> {
    match field {
        3 => Some("the scope belongs to another reactor or to a mode"),
        5 => Some("the mode is not one of the reactor's own"),
        10 => Some("the scope belongs to another reactor"),
        12 => Some("the target mode belongs to another reactor"),
        17 => Some("the scope does not name this mode"),
        18 => Some("the reactor's span of modes does not hold this mode"),
        20 => Some("the mode names another scope or another reactor"),
        28 => Some("the level is not that of the reaction"),
        31 => Some("an enabled mode belongs to another reactor"),
        33 => Some("the span's length is not the number of stations in the pack"),
        _ => None,
    }
}

impl Named {
    // The word for it at the head of a line of explain/names.txt.
    fn word(self) -> &'static str {
        match self {
            Named::Table => "table",
            Named::Field => "field",
            Named::Kind => "kind",
            Named::Direction => "direction",
            Named::Text => "text",
            Named::Slot => "slot",
            Named::Ownership => "ownership",
        }
    }

    // The name of a number, where it has one.
    pub(crate) fn name(self, number: u64) -> Option<&'static str> {
        match self {
            Named::Table if number == 255 => Some("Enclave key domain"),
            Named::Table => nth(&TABLE_NAMES, number),
            Named::Field => nth(&FIELDS, number.checked_sub(1)?),
            Named::Kind => nth(&KINDS, number.checked_sub(1)?),
            Named::Direction => nth(&DIRECTIONS, number),
            Named::Text => nth(&TEXTS, number),
            Named::Slot => slot(number),
            Named::Ownership => ownership(number),
        }
    }

    // The name of a number, or a word for one that has none.
    pub(crate) fn name_or_unknown(self, number: u64) -> &'static str {
        self.name(number).unwrap_or("unknown")
    }

    // Its names, a line each. The numbers of documents 01 and 02 that have names are below 256.
    fn list<W: Write>(self, out: &mut W) -> io::Result<()> {
        for number in 0..256u64 {
            if let Some(name) = self.name(number) {
                writeln!(out, "{} {number} {name}", self.word())?;
            }
        }
        Ok(())
    }
}

// The name of a table.
pub(crate) fn table_name(table: u8) -> &'static str {
    Named::Table.name_or_unknown(u64::from(table))
}

// The table of that name.
pub(crate) fn table_of(name: &str) -> Option<u8> {
    for table in 0..TABLES as u8 {
        let known = Named::Table.name(u64::from(table));
        if known.is_some_and(|known| known == name) {
            return Some(table);
        }
    }
    None
}

// Every name, in the form of explain/names.txt: for the test that the two agree.
pub(crate) fn list_names<W: Write>(out: &mut W) -> io::Result<()> {
    for named in ALL {
        named.list(out)?;
    }
    Ok(())
}
