//! A journal as its callers use it, `Listed` and the laws called at a type, and that the types cross threads.
use crate::rows::string_of;
use hist_journal::{
    Base, Bounds, Device, Entry, Journal, Kind, Listed, PrefName, ReserveError, Sections,
    clearing_goes_on, edition_goes_on, main_goes_on, nodes_go_on, pending_goes_on, raises_go_on,
    value_goes_on, weight_goes_on,
};
use std::alloc::{AllocError, Global};
use store_traits::{CallId, ClientId, NodeId};

const CALL: CallId = CallId {
    node: NodeId(1),
    client: ClientId(2),
    number: 3,
};

fn entry(kind: Kind<u64, u8>) -> Entry<u64, u8> {
    Entry { who: CALL, kind }
}

fn journal(alloc: Global, entries: u64, weight: u64) -> Journal<u64, u8> {
    Journal::new(alloc, Base::Corrupt, Bounds { entries, weight })
}

fn of_three(alloc: Global) -> Result<Journal<u64, u8>, ReserveError> {
    let mut journal = journal(alloc, 9, 99);
    journal.reserve(3)?;
    journal.push(entry(Kind::Raise), 0);
    journal.push(entry(Kind::Edit(7)), 40);
    journal.push(entry(Kind::Fault(Device::Folder, 1)), u64::MAX);
    Ok(journal)
}

fn is_second_edit(journal: &Journal<u64, u8>) -> bool {
    match journal.entry(2) {
        Some(entry) => matches!(entry.kind, Kind::Edit(7)),
        None => false,
    }
}

fn has_three(journal: &Journal<u64, u8>) -> bool {
    let is_counted = journal.len() == 3 && journal.weight() == u64::MAX;
    let has_ends = journal.entry(0).is_none() && journal.entry(4).is_none();
    is_counted && has_ends && matches!(journal.base(), Base::Corrupt)
}

fn grows_at_its_end(alloc: Global) -> Result<bool, ReserveError> {
    let journal = of_three(alloc)?;
    Ok(has_three(&journal) && is_second_edit(&journal))
}

#[test]
fn a_journal_grows_at_its_end(rt: HostRuntime) {
    assert_eq!(rt; grows_at_its_end(rt.alloc()), Ok(true));
}

const FULL: ReserveError = ReserveError::HistoryFull {
    entries: 1,
    weight: 2,
};

/// A history of one entry, which may have no other.
fn full(alloc: Global) -> Result<Journal<u64, u8>, ReserveError> {
    let mut journal = journal(alloc, 1, 5);
    journal.reserve(2)?;
    journal.push(entry(Kind::Same(1)), 2);
    Ok(journal)
}

fn push_past(journal: &mut Journal<u64, u8>) -> Result<u64, AllocError> {
    journal.reserve_past(4)?;
    journal.push(entry(Kind::Death(NodeId(1))), 0);
    Ok(journal.len())
}

fn is_refused_and_passed(alloc: Global) -> Result<bool, ReserveError> {
    let mut journal = full(alloc)?;
    let is_refused = journal.reserve(1) == Err(FULL);
    Ok(is_refused && push_past(&mut journal)? == 2)
}

fn full_is_told(alloc: Global, told: &str) -> Result<bool, AllocError> {
    Ok(format!(in alloc; "{FULL}")?.as_str() == told)
}

#[test]
fn a_full_history_is_refused_with_its_numbers(rt: HostRuntime) {
    assert_eq!(rt; is_refused_and_passed(rt.alloc()), Ok(true));
    let told = "the history is full with 1 entries of weight 2";
    assert_eq!(rt; full_is_told(rt.alloc(), told), Ok(true));
}

fn shown<S: Listed>(value: &S) {
    value.show_lawful();
}

#[test]
fn a_journal_is_listed(rt: HostRuntime) {
    shown(&journal(rt.alloc(), 1, 1));
}

fn old_and_older(alloc: Global) -> Result<Sections, AllocError> {
    let mut sections = Sections::new(alloc);
    sections.push(PrefName::new(string_of(alloc, "old")?))?;
    sections.push(PrefName::new(string_of(alloc, "older")?))?;
    Ok(sections)
}

fn names_are_kept(alloc: Global) -> Result<bool, AllocError> {
    let sections = old_and_older(alloc)?;
    let [first, second] = sections.names() else {
        return Ok(false);
    };
    Ok(first.as_str() == "old" && second.as_str() == "older")
}

#[test]
fn sections_keep_their_names(rt: HostRuntime) {
    assert_eq!(rt; names_are_kept(rt.alloc()), Ok(true));
}

#[test]
fn the_laws_are_those_of_concrete_histories() {
    value_goes_on::<u64, u8>();
    edition_goes_on::<u64, u8>();
    raises_go_on::<u64, u8>();
    weight_goes_on::<u64, u8>();
    main_goes_on::<u64, u8>();
    nodes_go_on::<u64, u8>();
    clearing_goes_on::<u64, u8>();
    pending_goes_on::<u64, u8>();
}

fn is_shared_by_threads<T: Send + Sync>() {}

#[test]
fn histories_cross_threads() {
    is_shared_by_threads::<Journal<u64, u8>>();
    is_shared_by_threads::<(Entry<u64, u8>, Base<u64>, Bounds)>();
    is_shared_by_threads::<(Sections, PrefName, Device, ReserveError)>();
}
