// A row of request records as a slice of structs lent by the caller, with its data area: submit, confirm and collect,
// thin over the queue's decisions. What each leaves is what `rows` leaves of the octets that the row stands for.
// Kept: the calls of `rows` again, over structs, since document 01 names both forms.
#![tactic(auto, using(crate::proofs::Laws::read_there, crate::proofs::Laws::put_there, crate::proofs::Laws::row_steps), unfolding(choice::specs::Choice::pick, choice::specs::Choice::same, queue::specs::Queue::accepted, rows::specs::Rows::confirm, rows::specs::Rows::handed, crate::specs::Records::placed))]

ghost use Rattle.std.specs.Prelude.{◌≡◌, ◌+◌, ◌*◌, ◌<◌, ◌≤◌, length, IfOk};
ghost use Rattle.request.specs.Record.{SIZE};
ghost use Rattle.queue.specs.Queue.{AREA, Ruled, taken, taken_of, closed, collected_of};
ghost use Rattle.rows.specs.Rows.{Lent, left, submitted, handed, at as rows_at};
ghost use Rattle.rows.specs.Rows.{fill as rows_fill, confirm as rows_confirm};
ghost use Rattle.records.specs.Records.{row_of, placed, filled};

use frame::{Address, Point};
use queue::{Handed, Queue, Taken};
use refusal::Refusal;
use request::Record;

// The record that a row has where there is none.
const NONE: Record = Record {
    service: 0,
    destination: Address(0),
    to: Point(0),
    from: Point(0),
    length: 0,
    status: 0,
    count: 0,
    reference: 0,
    limit: 0,
    asks: false,
};

// The record at a place.
pub fn at(row: &[Record], place: usize) -> Record
    ensures { result ≡ rows_at (row_of row.now) place }
{
    row.get(place).copied().unwrap_or(NONE)
}

// Decides submit, and puts the data of a request taken at its place of the data area.
pub fn take(ts: Address, q: Queue, r: Record, x: &[u8], area: &mut [u8]) -> Result<Taken, Refusal>
    requires { (Ruled q) × (length area.old ≡ AREA * q.places) }
    ensures { (taken_of q r result ≡ taken ts.0 q r (length x.now))
        × (area.new ≡ filled (taken_of q r result) x.now area.old) }
{
    let t = queue::take(ts, q, r, x.len())?;
    rows::fill(area, t.place, x);
    Ok(t)
}

// Puts the record of a request taken at its place of the row, and hands on what was decided. The clause is of every
// queue and record, since a refusal does not say of which it was decided.
pub fn store(t: Result<Taken, Refusal>, row: &mut [Record]) -> Result<Taken, Refusal>
    requires { IfOk t (λ t. t.place < length row.old) }
    ensures { (result ≡ t)
        × ((q : Queue) (r : Record) → row_of row.new ≡ placed (taken_of q r t) (row_of row.old)) }
{
    if let Ok(t) = t {
        row[usize::from(t.place)] = t.entry;
    }
    t
}

// Submits a request with its data.
pub fn submit(
    ts: Address,
    q: Queue,
    r: Record,
    x: &[u8],
    row: &mut [Record],
    area: &mut [u8],
) -> Result<Taken, Refusal>
    requires { (Ruled q) × (Lent q (row_of row.old) area.old) }
    ensures { left (taken_of q r result) (row_of row.new) area.new ≡ submitted ts.0 q r x.now
        (row_of row.old) area.old }
{
    store(take(ts, q, r, x, area), row)
}

// The record of a confirmed request; the reply's data go to its place of the data area.
fn mark(place: u8, r: Record, status: u8, count: u8, x: &[u8], area: &mut [u8]) -> Record
    requires { (AREA * place + AREA ≤ length area.old) × (length x.now ≤ AREA) }
    ensures { (result ≡ closed r status count (length x.now))
        × (area.new ≡ rows_fill area.old place x.now) }
{
    rows::fill(area, place, x);
    queue::close(r, status, count, x.len() as u8)
}

// Confirms the first unconfirmed request, with the reply's data.
pub fn confirm(
    q: Queue,
    status: u8,
    count: u8,
    x: &[u8],
    row: &mut [Record],
    area: &mut [u8],
) -> Queue
    requires { (Ruled q)
        × ((0 < q.unconfirmed) × (Lent q (row_of row.old) area.old × (length x.now ≤ AREA))) }
    ensures { left result (row_of row.new) area.new ≡ rows_confirm q status count x.now (row_of row.old) area.old }
{
    let place = queue::current(q);
    let at = usize::from(place);
    row[at] = mark(place, row[at], status, count, x, area);
    queue::confirm(q)
}

// Hands back the oldest confirmed record and its place's number.
pub fn collect(q: Queue, row: &[Record]) -> Result<Handed, Refusal>
    requires { (Ruled q) × (length (row_of row.now) ≡ SIZE * q.places) }
    ensures { collected_of result ≡ handed q (row_of row.now) }
{
    queue::collect(q, at(row, usize::from(q.first)))
}
