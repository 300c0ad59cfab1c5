//! A book in use: what it keeps of each kind of event, a halt, and room that can't be had.
use crate::book::Book;
use bc_alloc::Purpose;
use bc_disk::disk::Device;
use bc_events::event::{
    Change, Deed, Event, Failure, Form, LineNumber, MarkForm, UnpinKind, Written,
};
use bc_flight::claim::Share;
use bc_keys::Keys;
use bc_model::values::Values;
use std::alloc::{AllocError, Global};
use std::test::Fail;

const OF: LineNumber = LineNumber { worker: 1, line: 1 };

// Puts a deed of seat 0.
fn put(book: &mut Book, deed: Deed) -> Result<(), AllocError> {
    book.reserve(1)?;
    book.put_event(Event { seat: 0, deed });
    Ok(())
}

fn keys(alloc: Global) -> Keys {
    Keys::from_vec(Vec::new(alloc))
}

fn change(alloc: Global) -> Change {
    Change {
        low: 0,
        high: 8,
        gone: Vec::new(alloc),
        come: Vec::new(alloc),
        old: Vec::new(alloc),
        new: Vec::new(alloc),
    }
}

// Eight deeds that have nothing but a record: four before a line's calls, and four after.
fn put_claim(book: &mut Book) -> Result<(), AllocError> {
    put(book, Deed::LineFrom { of: OF })?;
    let share = Share::Exclusive;
    let claim = Deed::Claim {
        first: 0,
        count: 8,
        share,
    };
    put(book, claim)?;
    put(book, Deed::Look { leaf: 0 })?;
    let pin = Deed::Pin {
        at: 1024,
        count: 8,
        full: false,
    };
    put(book, pin)
}

fn put_release(book: &mut Book) -> Result<(), AllocError> {
    put(book, Deed::CacheBarrier)?;
    put(book, Deed::BackingBarrier)?;
    put(book, Deed::Release)?;
    put(book, Deed::LineDone { of: OF })
}

// Seven that put an entry, one of them with keys.
fn put_writes(book: &mut Book, alloc: Global) -> Result<(), AllocError> {
    let of = Some(OF);
    let values = Values::new(alloc);
    let write = Deed::BackingWrite {
        first: 0,
        of,
        values,
    };
    put(book, write)?;
    let values = Values::new(alloc);
    let insertion = Deed::InsertWrite {
        leaf: 0,
        keys: keys(alloc),
        of: OF,
        first: 0,
        values,
    };
    put(book, insertion)?;
    let values = Values::new(alloc);
    put_fault(
        book,
        Failure::BackingWrite {
            first: 0,
            of,
            values,
        },
    )
}

fn put_answers(book: &mut Book, alloc: Global) -> Result<(), AllocError> {
    let values = Values::new(alloc);
    let answer = Deed::Answer {
        of: OF,
        first: 0,
        values,
    };
    put(book, answer)?;
    put(book, Deed::FlushFrom { of: OF })?;
    put(book, Deed::FlushDone { of: OF })?;
    let durable = Deed::Durable {
        of: OF,
        first: 0,
        count: 8,
    };
    put(book, durable)
}

// Two readings.
fn put_readings(book: &mut Book, alloc: Global) -> Result<(), AllocError> {
    let values = Values::new(alloc);
    let of_data = Deed::CacheRead {
        at: 1024,
        first: Some(0),
        values,
    };
    put(book, of_data)?;
    let values = Values::new(alloc);
    let of_node = Deed::CacheRead {
        at: 16,
        first: None,
        values,
    };
    put(book, of_node)
}

// Three that have values.
fn put_values(book: &mut Book, alloc: Global) -> Result<(), AllocError> {
    let values = Values::new(alloc);
    let data = Deed::CacheWrite {
        at: 1024,
        what: Written::Data,
        values,
    };
    put(book, data)?;
    let values = Values::new(alloc);
    put(book, Deed::BackingRead { first: 0, values })?;
    let values = Values::new(alloc);
    let copied = Deed::BackingWrite {
        first: 0,
        of: None,
        values,
    };
    put(book, copied)
}

// Sixteen rare ones: of buckets, of keys, of the journal and the tree, and faults.
fn put_buckets(book: &mut Book, alloc: Global) -> Result<(), AllocError> {
    let kind = UnpinKind::Place { at: 1024, count: 8 };
    put(book, Deed::Unpin { kind })?;
    let purpose = Purpose::Plain;
    put(book, Deed::Take { purpose, bucket: 3 })?;
    put(book, Deed::Raise { bucket: 3 })?;
    let back = Vec::new(alloc);
    let named = Vec::new(alloc);
    put(book, Deed::Ready { back, named })
}

fn put_keys(book: &mut Book, alloc: Global) -> Result<(), AllocError> {
    let insert = Deed::Insert {
        leaf: 0,
        keys: keys(alloc),
        form: Form::Drop,
    };
    put(book, insert)?;
    let candidate = Deed::Candidate {
        candidate: 1,
        first: 0,
        count: 8,
        at: 1024,
    };
    put(book, candidate)?;
    let settle = Deed::Settle {
        leaf: 0,
        candidate: 1,
        keys: keys(alloc),
    };
    put(book, settle)?;
    let form = MarkForm::Begin;
    put(book, Deed::Mark { form })
}

fn put_journal(book: &mut Book, alloc: Global) -> Result<(), AllocError> {
    let rest = Vec::new(alloc);
    let seal = Deed::Seal {
        last_seq: 1,
        bucket: None,
        rest,
        new_root: None,
        chain: None,
    };
    put(book, seal)?;
    let values = Values::new(alloc);
    let entry = Deed::CacheWrite {
        at: 16,
        what: Written::Entry,
        values,
    };
    put(book, entry)?;
    put(book, Deed::Sealed)?;
    let come = Vec::new(alloc);
    let gone = Vec::new(alloc);
    let install = Deed::Install {
        change: change(alloc),
        come,
        gone,
    };
    put(book, install)
}

fn put_faults(book: &mut Book, alloc: Global) -> Result<(), AllocError> {
    let device = Device::Cache;
    put_fault(book, Failure::Read { device })?;
    put_fault(book, Failure::Barrier { device })?;
    let values = Values::new(alloc);
    let entry = Failure::CacheWrite {
        at: 16,
        what: Written::Entry,
        values,
    };
    put_fault(book, entry)?;
    let values = Values::new(alloc);
    let copied = Failure::BackingWrite {
        first: 0,
        of: None,
        values,
    };
    put_fault(book, copied)
}

fn put_fault(book: &mut Book, failure: Failure) -> Result<(), AllocError> {
    put(book, Deed::DeviceFault { failure })
}

#[test]
fn each_kind_is_kept_once(rt: HostRuntime) -> Result<(), Fail> {
    let mut book = Book::new(rt.alloc());
    put_claim(&mut book)?;
    put_writes(&mut book, rt.alloc())?;
    put_answers(&mut book, rt.alloc())?;
    put_readings(&mut book, rt.alloc())?;
    put_values(&mut book, rt.alloc())?;
    put_release(&mut book)?;
    put_buckets(&mut book, rt.alloc())?;
    put_keys(&mut book, rt.alloc())?;
    put_journal(&mut book, rt.alloc())?;
    put_faults(&mut book, rt.alloc())?;
    assert_eq!(rt; book.count(), 36);
    let pass = book.into_pass();
    assert_eq!(rt; pass.records.len(), 36);
    assert_eq!(rt; pass.entries().len(), 7);
    assert_eq!(rt; pass.insertions.len(), 1);
    assert_eq!(rt; pass.readings.len(), 2);
    assert_eq!(rt; pass.beside.len(), 3);
    assert_eq!(rt; pass.others.len(), 16);
    Ok(())
}

#[test]
fn the_first_halt_stays(rt: HostRuntime) -> Result<(), Fail> {
    let mut book = Book::new(rt.alloc());
    let claim = Event {
        seat: 1,
        deed: Deed::Claim {
            first: 0,
            count: 8,
            share: Share::Shared,
        },
    };
    put_fault(
        &mut book,
        Failure::Read {
            device: Device::Backing,
        },
    )?;
    assert_eq!(rt; book.halted(), None);
    assert_eq!(rt; book.admits(&claim), Ok(()));
    put_fault(
        &mut book,
        Failure::Barrier {
            device: Device::Cache,
        },
    )?;
    put_fault(
        &mut book,
        Failure::Barrier {
            device: Device::Backing,
        },
    )?;
    assert_eq!(rt; book.halted(), Some(Device::Cache));
    assert_eq!(rt; book.admits(&claim), Err(Device::Cache));
    let late = Event {
        seat: 1,
        deed: Deed::Release,
    };
    assert_eq!(rt; book.admits(&late), Ok(()));
    Ok(())
}

#[test]
fn room_that_cannot_be_had_leaves_what_there_is(rt: HostRuntime) -> Result<(), Fail> {
    let mut book = Book::new(rt.alloc());
    book.reserve(1)?;
    let Err(_) = book.reserve(usize::MAX) else {
        panic!(rt; "room for so many")
    };
    book.put_event(Event {
        seat: 0,
        deed: Deed::Release,
    });
    assert_eq!(rt; book.count(), 1);
    Ok(())
}
