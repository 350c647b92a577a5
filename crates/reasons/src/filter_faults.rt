//! Why a filter is refused: which of its terms, and what is wrong with it.
//!
//! Only `filter_from` and `Filter::new` decide whether a term is one; this tries the terms one by one, and finds words.

use crate::json_text::{Text, of_lines};
use crate::ordinal::Ordinal;
use crate::term_misfit::term_misfit;
use bits::R;
use schema::Schema;
use serde_json::Value as Json;
use std::alloc::Global;
use std::fmt::{self, Display, Formatter};

/// What is wrong with a filter.
#[derive(Debug, Drop)]
pub struct FilterFault {
    place: Place,
    what: String,
}

/// What of a filter is wrong: all of it, or the term at a place, counted from 0.
#[derive(Clone, Copy, Debug)]
enum Place {
    Whole,
    List(usize),
    Term(usize),
    TermOfList(usize, usize),
}

impl Display for FilterFault {
    fn fmt<W: fmt::Write>(&self, f: &mut Formatter<W>) -> fmt::Result {
        let what = &self.what;
        match self.place {
            Place::Whole => write!(f, "filter: {what}"),
            Place::List(list) => {
                let list = Ordinal(list.saturating_add(1));
                write!(f, "filter, {list} list: {what}")
            }
            Place::Term(term) => {
                let term = Ordinal(term.saturating_add(1));
                write!(f, "filter, {term} term: {what}")
            }
            Place::TermOfList(list, term) => {
                let (list, term) = (
                    Ordinal(list.saturating_add(1)),
                    Ordinal(term.saturating_add(1)),
                );
                write!(f, "filter, {term} term of the {list} list: {what}")
            }
        }
    }
}

impl FilterFault {
    /// What is wrong with a filter as a whole.
    fn of_all(alloc: Global, what: &str) -> R<FilterFault> {
        Ok(FilterFault {
            place: Place::Whole,
            what: String::from_str(alloc, what)?,
        })
    }
}

/// What is wrong with the filter that a text is, if something is: which term, and of it what. With `texts`, dates, times,
/// timestamps and decimals are texts.
pub fn filter_fault(
    alloc: Global,
    schema: &Schema,
    text: &str,
    texts: bool,
) -> R<Option<FilterFault>> {
    match of_lines(alloc, text)? {
        Text::None(why) => Ok(Some(FilterFault::of_all(alloc, why.as_str())?)),
        Text::Json { plain, marked } => fault_in(alloc, schema, &plain, &marked, texts),
    }
}

/// What is wrong with the filter that a JSON value is, if something is. The second value is the same with marked numbers.
pub fn fault_in(
    alloc: Global,
    schema: &Schema,
    plain: &Json,
    marked: &Json,
    texts: bool,
) -> R<Option<FilterFault>> {
    let (Json::Array(items), Json::Array(shown)) = (plain, marked) else {
        return Ok(Some(FilterFault::of_all(alloc, "expected an array of terms")?));
    };
    let (items, shown) = (items.as_slice(), shown.as_slice());
    match (items.iter().any(is_list), items.iter().any(is_triple)) {
        (true, true) => Ok(Some(FilterFault::of_all(
            alloc,
            "it has terms next to lists of terms: put each term in a list",
        )?)),
        (true, false) => fault_in_lists(alloc, schema, items, shown, texts),
        (false, _) => match fault_in_terms(alloc, schema, items, shown, texts)? {
            Some((term, what)) => Ok(Some(FilterFault {
                place: Place::Term(term),
                what,
            })),
            None => Ok(None),
        },
    }
}

/// Whether this is a list of a column, an operator and a value.
fn is_triple(json: &Json) -> bool {
    match json {
        Json::Array(members) => matches!(members.as_slice(), [_, Json::String(_), _]),
        _ => false,
    }
}

/// Whether this is a list of lists that is no triple, as a list of terms is.
fn is_list(json: &Json) -> bool {
    match json {
        Json::Array(members) => {
            !is_triple(json)
                && members
                    .iter()
                    .all(|member| matches!(member, Json::Array(_)))
        }
        _ => false,
    }
}

/// What is wrong with the first of some lists of terms that has a fault, if one has.
fn fault_in_lists(
    alloc: Global,
    schema: &Schema,
    lists: &[Json],
    shown: &[Json],
    texts: bool,
) -> R<Option<FilterFault>> {
    for (place, (list, marked)) in lists.iter().zip(shown.iter()).enumerate() {
        let (Json::Array(terms), Json::Array(marked)) = (list, marked) else {
            let what = String::from_str(alloc, "expected a list of terms")?;
            return Ok(Some(FilterFault {
                place: Place::List(place),
                what,
            }));
        };
        let found = fault_in_terms(alloc, schema, terms.as_slice(), marked.as_slice(), texts)?;
        if let Some((term, what)) = found {
            return Ok(Some(FilterFault {
                place: Place::TermOfList(place, term),
                what,
            }));
        }
    }
    Ok(None)
}

/// The place of the first of some terms that has a fault, and what is wrong with it, if one has.
fn fault_in_terms(
    alloc: Global,
    schema: &Schema,
    terms: &[Json],
    shown: &[Json],
    texts: bool,
) -> R<Option<(usize, String)>> {
    for (place, (term, marked)) in terms.iter().zip(shown.iter()).enumerate() {
        if let Some(what) = term_misfit(alloc, schema, term, marked, texts)? {
            return Ok(Some((place, what)));
        }
    }
    Ok(None)
}
