//! An event taken apart: its record, and what goes into the other lists of a pass.
ghost use Rattle.std.specs.Prelude.{◌≡◌, Option, Some, None};
ghost use Rattle.bc_events.specs.Columns.{entry_by};
ghost use Rattle.bc_events.specs.declared.event.Deed.TheVariants as deed;
ghost use Rattle.bc_book.specs.Pass.{event_by, deed_of_entry, read_of};
ghost use Rattle.bc_book.specs.Filed.{IsFiled, failed_write};
ghost use Rattle.bc_book.specs.declared.filed.Places.{Places};

use crate::pass::{Insertion, Reading, Record};
use bc_events::event::{Deed, Event, Failure, LineNumber, Written};
use bc_keys::Keys;
use bc_model::history::Entry;
use bc_model::values::Values;

/// The next places of the lists of a pass.
#[derive(Clone, Copy, Drop)]
pub(crate) struct Places {
    pub(crate) entries: usize,
    pub(crate) beside: usize,
    pub(crate) readings: usize,
    pub(crate) insertions: usize,
    pub(crate) others: usize,
}

/// What goes into a list that is neither the history nor that of the records.
#[derive(Drop)]
pub(crate) enum Aside {
    Nothing,
    Values(Values),
    Reading(Reading),
    Insertion(Insertion),
    Deed(Deed),
}

/// A record, with what it puts into the history and beside it.
#[derive(Drop)]
pub(crate) struct Filed {
    pub(crate) record: Record,
    pub(crate) entry: Option<Entry>,
    pub(crate) aside: Aside,
}

// What an entry tells.
fn filed_entry(seat: u32, entry: Entry, places: Places) -> Filed
    requires { entry_by (deed_of_entry entry) ≡ Some entry }
    ensures { IsFiled places result (event_by seat (deed_of_entry entry)) }
{
    let record = Record::Entry {
        seat,
        entry: places.entries,
    };
    Filed {
        record,
        entry: Some(entry),
        aside: Aside::Nothing,
    }
}

// A deed that is kept whole.
fn filed_deed(seat: u32, deed: Deed, places: Places) -> Filed
    requires { entry_by deed ≡ None }
    ensures { IsFiled places result (event_by seat deed) }
{
    let record = Record::Other {
        seat,
        deed: places.others,
    };
    Filed {
        record,
        entry: None,
        aside: Aside::Deed(deed),
    }
}

// A write of the backing device: a line's, or a copy of what the cache has.
fn filed_write(
    seat: u32,
    first: u64,
    of: Option<LineNumber>,
    values: Values,
    places: Places,
) -> Filed
    ensures { IsFiled places result (event_by seat (deed.BackingWrite first of values)) }
{
    match of {
        Some(of) => {
            let entry = Entry::Write {
                worker: of.worker,
                line: of.line,
                first,
                values,
            };
            filed_entry(seat, entry, places)
        }
        None => {
            let record = Record::BackingCopy {
                seat,
                first,
                values: places.beside,
            };
            Filed {
                record,
                entry: None,
                aside: Aside::Values(values),
            }
        }
    }
}

// The keys of a line's write, as they come into a leaf.
fn filed_insertion(
    seat: u32,
    leaf: u32,
    keys: Keys,
    of: LineNumber,
    first: u64,
    values: Values,
    places: Places,
) -> Filed
    ensures { IsFiled places result (event_by seat (deed.InsertWrite leaf keys of first values)) }
{
    let entry = Entry::Write {
        worker: of.worker,
        line: of.line,
        first,
        values,
    };
    let insertion = Insertion {
        leaf,
        keys,
        entry: places.entries,
    };
    Filed {
        record: Record::Insertion {
            seat,
            insertion: places.insertions,
        },
        entry: Some(entry),
        aside: Aside::Insertion(insertion),
    }
}

// An answer of a read.
fn filed_answer(seat: u32, of: LineNumber, first: u64, values: Values, places: Places) -> Filed
    ensures { IsFiled places result (event_by seat (deed.Answer of first values)) }
{
    let entry = Entry::Read {
        worker: of.worker,
        line: of.line,
        first,
        values,
    };
    filed_entry(seat, entry, places)
}

// A flush begins.
fn filed_flush_from(seat: u32, of: LineNumber, places: Places) -> Filed
    ensures { IsFiled places result (event_by seat (deed.FlushFrom of)) }
{
    let entry = Entry::FlushFrom {
        worker: of.worker,
        line: of.line,
    };
    filed_entry(seat, entry, places)
}

// It is acknowledged.
fn filed_flush_done(seat: u32, of: LineNumber, places: Places) -> Filed
    ensures { IsFiled places result (event_by seat (deed.FlushDone of)) }
{
    let entry = Entry::FlushDone {
        worker: of.worker,
        line: of.line,
    };
    filed_entry(seat, entry, places)
}

// A write is acknowledged.
fn filed_durable(seat: u32, of: LineNumber, first: u64, count: u32, places: Places) -> Filed
    ensures { IsFiled places result (event_by seat (deed.Durable of first count)) }
{
    let entry = Entry::Durable {
        worker: of.worker,
        line: of.line,
        first,
        count,
    };
    filed_entry(seat, entry, places)
}

// A write of the backing device failed.
fn filed_failed_write(
    seat: u32,
    first: u64,
    of: Option<LineNumber>,
    values: Values,
    places: Places,
) -> Filed
    ensures { IsFiled places result (event_by seat (failed_write first of values)) }
{
    match of {
        Some(of) => {
            let record = Record::LineFault {
                seat,
                of,
                entry: places.entries,
            };
            Filed {
                record,
                entry: Some(Entry::Tried { first, values }),
                aside: Aside::Nothing,
            }
        }
        None => {
            let failure = Failure::BackingWrite {
                first,
                of: None,
                values,
            };
            filed_deed(seat, Deed::DeviceFault { failure }, places)
        }
    }
}

// A call of a device failed.
fn filed_fault(seat: u32, failure: Failure, places: Places) -> Filed
    ensures { IsFiled places result (event_by seat (deed.DeviceFault failure)) }
{
    match failure {
        Failure::BackingWrite { first, of, values } => filed_failed_write(
            seat, first, of, values, places,
        ),
        failure => filed_deed(seat, Deed::DeviceFault { failure }, places),
    }
}

// A read of the cache device.
fn filed_reading(seat: u32, at: u64, reading: Reading, places: Places) -> Filed
    ensures { IsFiled places result (event_by seat (read_of at reading)) }
{
    let record = Record::CacheRead {
        seat,
        at,
        reading: places.readings,
    };
    Filed {
        record,
        entry: None,
        aside: Aside::Reading(reading),
    }
}

// A write of the cache device.
fn filed_cache_write(seat: u32, at: u64, what: Written, values: Values, places: Places) -> Filed
    ensures { IsFiled places result (event_by seat (deed.CacheWrite at what values)) }
{
    match what {
        Written::Data => {
            let record = Record::CacheWrite {
                seat,
                at,
                values: places.beside,
            };
            Filed {
                record,
                entry: None,
                aside: Aside::Values(values),
            }
        }
        what => {
            let deed = Deed::CacheWrite { at, what, values };
            filed_deed(seat, deed, places)
        }
    }
}

// A deed that is no call of a device and puts no entry.
fn filed_hold(seat: u32, deed: Deed, places: Places) -> Filed
    requires { entry_by deed ≡ None }
    ensures { IsFiled places result (event_by seat deed) }
{
    let record = match deed {
        Deed::Claim {
            first,
            count,
            share,
        } => Record::Claim {
            seat,
            first,
            count,
            share,
        },
        Deed::Release => Record::Release { seat },
        Deed::Look { leaf } => Record::Look { seat, leaf },
        Deed::Pin { at, count, full } => Record::Pin {
            full,
            seat,
            at,
            count,
        },
        Deed::LineFrom { of } => Record::LineFrom { seat, of },
        Deed::LineDone { of } => Record::LineDone { seat, of },
        deed => return filed_deed(seat, deed, places),
    };
    Filed {
        record,
        entry: None,
        aside: Aside::Nothing,
    }
}

// A deed that puts no entry.
fn filed_call(seat: u32, deed: Deed, places: Places) -> Filed
    requires { entry_by deed ≡ None }
    ensures { IsFiled places result (event_by seat deed) }
{
    match deed {
        Deed::CacheRead { at, first, values } => {
            filed_reading(seat, at, Reading { first, values }, places)
        }
        Deed::CacheWrite { at, what, values } => filed_cache_write(seat, at, what, values, places),
        Deed::BackingRead { first, values } => {
            let record = Record::BackingRead {
                seat,
                first,
                values: places.beside,
            };
            Filed {
                record,
                entry: None,
                aside: Aside::Values(values),
            }
        }
        Deed::CacheBarrier => Filed {
            record: Record::CacheBarrier { seat },
            entry: None,
            aside: Aside::Nothing,
        },
        Deed::BackingBarrier => Filed {
            record: Record::BackingBarrier { seat },
            entry: None,
            aside: Aside::Nothing,
        },
        deed => filed_hold(seat, deed, places),
    }
}

/// The event taken apart, where these are the next places.
pub(crate) fn filed_event(event: Event, places: Places) -> Filed
    ensures { IsFiled places result event }
{
    let Event { seat, deed } = event;
    match deed {
        Deed::BackingWrite { first, of, values } => filed_write(seat, first, of, values, places),
        Deed::InsertWrite {
            leaf,
            keys,
            of,
            first,
            values,
        } => filed_insertion(seat, leaf, keys, of, first, values, places),
        Deed::Answer { of, first, values } => filed_answer(seat, of, first, values, places),
        Deed::FlushFrom { of } => filed_flush_from(seat, of, places),
        Deed::FlushDone { of } => filed_flush_done(seat, of, places),
        Deed::Durable { of, first, count } => filed_durable(seat, of, first, count, places),
        Deed::DeviceFault { failure } => filed_fault(seat, failure, places),
        deed => filed_call(seat, deed, places),
    }
}
