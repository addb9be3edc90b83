// The calls on a row for the tests outside Rattle, as C functions. Numbers go in and structs of numbers come out; every
// input has an answer: what a call requires of the queue, the row and the data is asked here first. Assumes nothing.
// Kept: numbers, a field for the refusal, and parameters one by one, because the C interface has them so.
#![tactic(auto, using(crate::proofs::row_calls::Laws::unrefused), unfolding(choice::specs::Choice::pick, choice::specs::Choice::said, choice::specs::Choice::same, choice::specs::Choice::less, refusal::specs::Refusal::number, refusal::specs::Refusal::refused, queue::specs::Queue::taken_of, queue::specs::Queue::accepted, queue::specs::Queue::refuse, queue::specs::Queue::collected_of, crate::specs::Calls::answered, crate::specs::Calls::flat_queue, crate::specs::Calls::flat_taken, crate::specs::Calls::unlent, crate::specs::Calls::submits, crate::specs::Calls::flat_submitted, crate::specs::Calls::confirms, crate::specs::Calls::flat_confirmed, crate::specs::Calls::drains, crate::specs::Calls::flat_collected, crate::specs::Calls::collects, crate::specs::Calls::sounds))]

ghost use Rattle.std.specs.Prelude.{◌≡◌};
ghost use Rattle.refusal.specs.Refusal.{refused};
ghost use Rattle.queue.specs.Queue.{taken_of, collected_of};
ghost use Rattle.rows.specs.Rows.{left};
ghost use Rattle.test_parts.specs.Calls.{queue_from, request_from, flat_taken, flat_collected, submits};
ghost use Rattle.test_parts.specs.Calls.{confirms, drains, collects, sounds, answered as calls_answered};
ghost use Rattle.test_parts.specs.Calls.{unlent as calls_unlent};

use frame::{Address, Point};
use queue::{Handed, Queue, Taken};
use refusal::Refusal;
use request::Record;

// What a call on a row answers: the refusal or 0, the place that submit took, and the queue's counts.
#[repr(C)]
#[derive(Clone, Copy)]
pub struct FlatQueue {
    pub refused: u8,
    pub place: u8,
    pub first: u8,
    pub confirmed: u8,
    pub unconfirmed: u8,
}

// What collect answers: the refusal, or 0 with the record, its place's number and the queue's counts.
#[repr(C)]
#[derive(Clone, Copy, Default)]
pub struct FlatCollected {
    pub refused: u8,
    pub place: u8,
    pub service: u8,
    pub destination: u8,
    pub to: u8,
    pub from: u8,
    pub length: u8,
    pub status: u8,
    pub count: u8,
    pub limit: u8,
    pub asks: u8,
    pub first: u8,
    pub confirmed: u8,
    pub unconfirmed: u8,
    pub reference: u32,
}

// The answer of a call that was refused or makes a queue, and that of submit.
fn answered(q: Queue, made: Result<Queue, Refusal>) -> FlatQueue
    ensures { result ≡ calls_answered q made }
{
    let (refused, queue) = match made {
        Ok(queue) => (0, queue),
        Err(r) => (r.number(), q),
    };
    FlatQueue {
        refused,
        place: 0,
        first: queue.first,
        confirmed: queue.confirmed,
        unconfirmed: queue.unconfirmed,
    }
}

fn flat_taken(q: Queue, r: Record, taken: Result<Taken, Refusal>) -> FlatQueue
    ensures { result ≡ flat_taken (taken_of q r taken) }
{
    match taken {
        Ok(t) => FlatQueue {
            place: t.place,
            ..answered(q, Ok(t.queue))
        },
        Err(refusal) => answered(q, Err(refusal)),
    }
}

// The refusal 21 or 29 of a queue, with a row and a data area of these lengths.
fn unlent(q: Queue, row: usize, area: usize) -> Result<(), Refusal>
    ensures { refused result ≡ calls_unlent q row area }
{
    if queue::misfit(q, request::SIZE, row, area) {
        return Err(Refusal::Row);
    }
    if queue::overfull(q) {
        return Err(Refusal::State);
    }
    Ok(())
}

// Submits a request with its data, after what the call asks of the queue; the C function is thin over that.
fn submit(
    ts: Address,
    q: Queue,
    r: Record,
    x: &[u8],
    row: &mut [u8],
    area: &mut [u8],
) -> Result<Taken, Refusal>
    ensures { left (flat_taken (taken_of q r result)) row.new area.new ≡ submits ts.0 q r x.now row.old area.old }
{
    unlent(q, row.len(), area.len())?;
    rows::submit(ts, q, r, x, row, area)
}

#[unsafe(no_mangle)]
pub extern "C" fn parts_submit(
    ts: u8,
    places: u8,
    first: u8,
    confirmed: u8,
    unconfirmed: u8,
    service: u8,
    destination: u8,
    to: u8,
    from: u8,
    reference: u32,
    limit: u8,
    asks: u8,
    x: &[u8],
    row: &mut [u8],
    area: &mut [u8],
) -> FlatQueue
    ensures { left result row.new area.new
        ≡ submits ts (queue_from places first confirmed unconfirmed)
        (request_from service destination to from reference limit asks)
        x.now row.old area.old }
{
    let q = Queue {
        places,
        first,
        confirmed,
        unconfirmed,
    };
    let r = Record {
        service,
        destination: Address(destination),
        to: Point(to),
        from: Point(from),
        length: 0,
        status: 0,
        count: 0,
        reference,
        limit,
        asks: request::flagged(asks),
    };
    flat_taken(q, r, submit(Address(ts), q, r, x, row, area))
}

// Confirms the first unconfirmed request, with the reply's data; 28 stands for none unconfirmed, 26 for too many data.
fn confirm(
    q: Queue,
    status: u8,
    count: u8,
    x: &[u8],
    row: &mut [u8],
    area: &mut [u8],
) -> Result<Queue, Refusal>
    ensures { left (calls_answered q result) row.new area.new ≡ confirms q status count x.now row.old area.old }
{
    unlent(q, row.len(), area.len())?;
    if q.unconfirmed == 0 {
        return Err(Refusal::NoneConfirmed);
    }
    if queue::AREA < x.len() {
        return Err(Refusal::Data);
    }
    Ok(rows::confirm(q, status, count, x, row, area))
}

#[unsafe(no_mangle)]
pub extern "C" fn parts_confirm(
    places: u8,
    first: u8,
    confirmed: u8,
    unconfirmed: u8,
    status: u8,
    count: u8,
    x: &[u8],
    row: &mut [u8],
    area: &mut [u8],
) -> FlatQueue
    ensures { left result row.new area.new
        ≡ confirms (queue_from places first confirmed unconfirmed) status count x.now row.old
        area.old }
{
    let q = Queue {
        places,
        first,
        confirmed,
        unconfirmed,
    };
    answered(q, confirm(q, status, count, x, row, area))
}

// Confirms all unconfirmed requests DS, the first with its count of sendings.
fn drain(q: Queue, count: u8, row: &mut [u8], area: &mut [u8]) -> Result<Queue, Refusal>
    ensures { left (calls_answered q result) row.new area.new ≡ drains q count row.old area.old }
{
    unlent(q, row.len(), area.len())?;
    Ok(rows::drain(q, count, row, area))
}

#[unsafe(no_mangle)]
pub extern "C" fn parts_drain(
    places: u8,
    first: u8,
    confirmed: u8,
    unconfirmed: u8,
    count: u8,
    row: &mut [u8],
    area: &mut [u8],
) -> FlatQueue
    ensures { left result row.new area.new
        ≡ drains (queue_from places first confirmed unconfirmed) count row.old area.old }
{
    let q = Queue {
        places,
        first,
        confirmed,
        unconfirmed,
    };
    answered(q, drain(q, count, row, area))
}

// The answer of collect: its record with the queue that it leaves, or all 0 with the queue as it is.
fn flat_collected(q: Queue, given: Result<Handed, Refusal>) -> FlatCollected
    ensures { result ≡ flat_collected q (collected_of given) }
{
    let (h, r) = match given {
        Ok(h) => (h, h.entry),
        Err(refusal) => {
            return FlatCollected {
                refused: refusal.number(),
                first: q.first,
                confirmed: q.confirmed,
                unconfirmed: q.unconfirmed,
                ..FlatCollected::default()
            };
        }
    };
    FlatCollected {
        refused: 0,
        place: h.place,
        service: r.service,
        destination: r.destination.0,
        to: r.to.0,
        from: r.from.0,
        length: r.length,
        status: r.status,
        count: r.count,
        limit: r.limit,
        asks: request::flag(r.asks),
        first: h.queue.first,
        confirmed: h.queue.confirmed,
        unconfirmed: h.queue.unconfirmed,
        reference: r.reference,
    }
}

// Hands back the oldest confirmed record and its place's number.
fn collect(q: Queue, row: &[u8], area: &[u8]) -> Result<Handed, Refusal>
    ensures { flat_collected q (collected_of result) ≡ collects q row.now area.now }
{
    unlent(q, row.len(), area.len())?;
    rows::collect(q, row)
}

#[unsafe(no_mangle)]
pub extern "C" fn parts_collect(
    places: u8,
    first: u8,
    confirmed: u8,
    unconfirmed: u8,
    row: &[u8],
    area: &[u8],
) -> FlatCollected
    ensures { result
        ≡ collects (queue_from places first confirmed unconfirmed) row.now area.now }
{
    let q = Queue {
        places,
        first,
        confirmed,
        unconfirmed,
    };
    flat_collected(q, collect(q, row, area))
}

// The refusal 21 or 29 of a queue and of its unconfirmed records, or 0.
fn sound(ts: Address, q: Queue, row: &[u8], area: &[u8]) -> Result<(), Refusal>
    ensures { refused result ≡ sounds ts.0 q row.now area.now }
{
    unlent(q, row.len(), area.len())?;
    if rows::sound(ts, q, row) {
        Ok(())
    } else {
        Err(Refusal::State)
    }
}

#[unsafe(no_mangle)]
pub extern "C" fn parts_sound(
    ts: u8,
    places: u8,
    first: u8,
    confirmed: u8,
    unconfirmed: u8,
    row: &[u8],
    area: &[u8],
) -> u8
    ensures { result
        ≡ sounds ts (queue_from places first confirmed unconfirmed) row.now area.now }
{
    let q = Queue {
        places,
        first,
        confirmed,
        unconfirmed,
    };
    match sound(Address(ts), q, row, area) {
        Ok(()) => 0,
        Err(r) => r.number(),
    }
}
