// Which rows of its station a refusal names, by the papers' numbers: for the words that say where it is, and for the mark in a picture.
use crate::show::words::RowName;
use schema::row::Row;
use schema::rows::{
    DeadlineImage, EnclaveImage, ReactionImage, ReactorImage, RequiredBindingImage, RouteImage,
    ScopeImage,
};

// A row of the table of a type.
fn row_of<R: Row>(index: u64) -> Option<RowName> {
    let table = u64::from(R::TABLE);
    Some(RowName { table, index })
}

// The row of an identity, by its kind and its place: the station's own, a boundary's, a binding's.
fn identity_row(kind: u64, index: u64) -> Option<RowName> {
    match kind {
        4 => row_of::<EnclaveImage>(0),
        5 => row_of::<RouteImage>(index),
        6 => row_of::<RequiredBindingImage>(index),
        _ => None,
    }
}

// The row that it names. 18 is a scope among its own parents, 19 to 21 are of identities, 22 of banks, 29 and 30 of the night, 32 of levels, 39 of deadlines.
pub(crate) fn row_named(refusal: &[u64]) -> Option<RowName> {
    match refusal {
        [12..=17 | 23..=25, table, index, ..] => {
            let (table, index) = (*table, *index);
            Some(RowName { table, index })
        }
        [18, scope] => row_of::<ScopeImage>(*scope),
        [19..=21, kind, index, ..] => identity_row(*kind, *index),
        [22, reactor, ..] => row_of::<ReactorImage>(*reactor),
        [29, _, route] => row_of::<RouteImage>(*route),
        [30, _, scope] => row_of::<ScopeImage>(*scope),
        [32, reaction, _] => row_of::<ReactionImage>(*reaction),
        [39, deadline] => row_of::<DeadlineImage>(*deadline),
        _ => None,
    }
}

// The second row that it names: the reaction that is triggered, whose level does not rise over the first one's.
pub(crate) fn target_named(refusal: &[u64]) -> Option<RowName> {
    match refusal {
        [32, _, target] => row_of::<ReactionImage>(*target),
        _ => None,
    }
}
