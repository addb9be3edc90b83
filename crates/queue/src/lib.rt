// A queue's places in turn, and the decisions of submit, confirmation and collect as functions of values. Nothing here
// touches a row. Assumes nothing.
#![tactic(auto, using(crate::proofs::Laws::small_row, crate::proofs::Laws::fits), unfolding(choice::specs::Choice::pick, choice::specs::Choice::less, choice::specs::Choice::same, choice::specs::Choice::said, refusal::specs::Refusal::refused, refusal::specs::Refusal::number, crate::specs::Queue::place, crate::specs::Queue::current, crate::specs::Queue::closed, crate::specs::Queue::confirmed, crate::specs::Queue::freed, crate::specs::Queue::misfit, crate::specs::Queue::unlike, crate::specs::Queue::overfull, crate::specs::Queue::above, crate::specs::Queue::taken, crate::specs::Queue::taken_of, crate::specs::Queue::accepted, crate::specs::Queue::refuse, crate::specs::Queue::take, crate::specs::Queue::grown, crate::specs::Queue::collected, crate::specs::Queue::collected_of))]

ghost use Rattle.std.specs.Prelude.{◌≡◌, ◌+◌, ◌<◌, ◌≤◌};
ghost use Rattle.queue.specs.Queue.{Ruled, place as queue_place, current as queue_current};
ghost use Rattle.queue.specs.Queue.{misfit as queue_misfit, overfull as queue_overfull};
ghost use Rattle.queue.specs.Queue.{taken, taken_of, closed, confirmed, freed, collected, collected_of};

use frame::Address;
use refusal::Refusal;
use request::Record;

// The most places of a row, and the data octets of each.
pub const PLACES: usize = 64;

pub const AREA: usize = 246;

// A queue: the places of its row, the first place in use, and how many requests are confirmed and not.
#[derive(Clone, Copy, Debug, PartialEq, Eq)]
pub struct Queue {
    pub places: u8,
    pub first: u8,
    pub confirmed: u8,
    pub unconfirmed: u8,
}

// What submit decides where it takes a request: the place taken, the record to stand there, and the queue.
#[derive(Clone, Copy, Debug, PartialEq, Eq)]
pub struct Taken {
    pub place: u8,
    pub entry: Record,
    pub queue: Queue,
}

// What collect hands back: the place's number, its record, and the queue with the place free.
#[derive(Clone, Copy, Debug, PartialEq, Eq)]
pub struct Handed {
    pub place: u8,
    pub entry: Record,
    pub queue: Queue,
}

// The place some places behind the first in use.
pub fn place(q: Queue, k: u8) -> u8
    requires { (Ruled q) × (k ≤ q.places) }
    ensures { (result ≡ queue_place q k) × (result < q.places) }
{
    let at = q.first + k;
    if at < q.places { at } else { at - q.places }
}

// Whether a row and its data area are not the queue's, when the row counts so many for each place.
pub fn misfit(q: Queue, each: usize, row: usize, area: usize) -> bool
    requires { each ≤ 255 }
    ensures { result ≡ queue_misfit q each row area }
{
    let places = usize::from(q.places);
    places == 0 || PLACES < places || row != each * places || area != AREA * places
}

// Whether a queue's counts are above its row.
pub fn overfull(q: Queue) -> bool
    ensures { result ≡ queue_overfull q }
{
    let places = usize::from(q.places);
    let used = usize::from(q.confirmed) + usize::from(q.unconfirmed);
    PLACES < places || q.places <= q.first || places < used
}

// Decides submit, of a request with n octets of data.
pub fn take(ts: Address, q: Queue, r: Record, n: usize) -> Result<Taken, Refusal>
    requires { Ruled q }
    ensures { taken_of q r result ≡ taken ts.0 q r n }
{
    request::unfit(ts, r, n)?;
    let used = q.confirmed + q.unconfirmed;
    if q.places <= used {
        return Err(Refusal::Full);
    }
    Ok(Taken {
        place: place(q, used),
        entry: close(r, request::WAITING, 0, n as u8),
        queue: Queue {
            unconfirmed: q.unconfirmed + 1,
            ..q
        },
    })
}

// A record with a status, a count of sendings and n octets of data.
pub fn close(r: Record, status: u8, count: u8, n: u8) -> Record
    ensures { result ≡ closed r status count n }
{
    Record {
        length: n,
        status,
        count,
        ..r
    }
}

// The place of the first unconfirmed request.
pub fn current(q: Queue) -> u8
    requires { Ruled q }
    ensures { (result ≡ queue_current q) × (result < q.places) }
{
    place(q, q.confirmed)
}

// The queue with its first unconfirmed request confirmed.
pub fn confirm(q: Queue) -> Queue
    requires { (Ruled q) × (0 < q.unconfirmed) }
    ensures { result ≡ confirmed q }
{
    Queue {
        confirmed: q.confirmed + 1,
        unconfirmed: q.unconfirmed - 1,
        ..q
    }
}

fn free(q: Queue) -> Queue
    requires { (Ruled q) × (0 < q.confirmed) }
    ensures { result ≡ freed q }
{
    Queue {
        first: place(q, 1),
        confirmed: q.confirmed - 1,
        ..q
    }
}

// Decides collect, of the record at the first place in use.
pub fn collect(q: Queue, r: Record) -> Result<Handed, Refusal>
    requires { Ruled q }
    ensures { collected_of result ≡ collected q r }
{
    if q.confirmed == 0 {
        return Err(Refusal::NoneConfirmed);
    }
    if !request::named(r.status) {
        return Err(Refusal::State);
    }
    Ok(Handed {
        place: q.first,
        entry: r,
        queue: free(q),
    })
}
