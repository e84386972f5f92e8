// The answer of a case, and how it is printed.
use crate::input::{Case, Question};
use answers::Refusal;
use enclave::check::check_enclave;
use federate::FederateAccepted;
use federate::check::check_federate;
use mode_owner::mode_owner;
use night::check_federate_night;
use rising::rising::check_rising;
use schema::index::ReactorIndex;
use std::fmt;

// By question: each has an answer of its own.
#[derive(Clone, Copy)]
pub enum Answer {
    Enclave(Result<u64, Refusal>),
    Federate(Result<FederateAccepted, Refusal>),
    ModeOwner(Result<ReactorIndex, Refusal>),
    Reached(Result<u32, Refusal>),
}

pub fn answer_of(case: Case) -> Answer {
    let Case {
        question,
        pack,
        batch,
        house,
    } = case;
    match question {
        Question::Enclave => Answer::Enclave(check_enclave(pack, batch, house)),
        Question::Federate => Answer::Federate(check_federate(pack, batch, house)),
        Question::FederateNight => Answer::Federate(check_federate_night(pack, batch, house)),
        Question::Rising => Answer::Enclave(check_rising(pack, batch, house)),
        Question::ModeOwner { mode } => Answer::ModeOwner(mode_owner(pack, batch, house, mode)),
    }
}

impl fmt::Display for Answer {
    fn fmt<W: fmt::Write>(&self, f: &mut fmt::Formatter<W>) -> fmt::Result {
        match *self {
            Answer::Enclave(Ok(links)) => write!(f, "accepted {links}"),
            Answer::Federate(Ok(FederateAccepted { enclaves, links })) => {
                write!(f, "accepted {enclaves} {links}")
            }
            Answer::ModeOwner(Ok(reactor)) => write!(f, "owner {}", reactor.0),
            Answer::Reached(Ok(count)) => write!(f, "reached {count}"),
            Answer::Enclave(Err(refusal))
            | Answer::Federate(Err(refusal))
            | Answer::ModeOwner(Err(refusal))
            | Answer::Reached(Err(refusal)) => write!(f, "refused {refusal}"),
        }
    }
}
