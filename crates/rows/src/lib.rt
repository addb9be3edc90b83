// A row of request records as octets at fixed places, with its data area: submit, confirm, collect, and the check of
// the unconfirmed records, thin over the queue's decisions. Assumes nothing.
#![tactic(auto, using(crate::proofs::Check::some_refusal), unfolding(choice::specs::Choice::same, refusal::specs::Refusal::refused, crate::specs::Rows::at, crate::specs::Rows::put, crate::specs::Rows::fill, crate::specs::Rows::confirm, crate::specs::Rows::handed))]

ghost use Rattle.std.specs.Prelude.{◌≡◌, ◌+◌, ◌*◌, ◌<◌, ◌≤◌, length};
ghost use Rattle.request.specs.Record.{SIZE, unfit};
ghost use Rattle.queue.specs.Queue.{AREA, Ruled, taken_of, collected_of};
ghost use Rattle.rows.specs.Rows.{Lent, left, submitted, handed, at as rows_at, put as rows_put};
ghost use Rattle.rows.specs.Rows.{fill as rows_fill, confirm as rows_confirm, drain as rows_drain};
ghost use Rattle.rows.specs.Rows.{sound as rows_sound, pending};
ghost use Rattle.choice.specs.Choice.{same};

use frame::Address;
use queue::{Handed, Queue, Taken};
use refusal::Refusal;
use request::Record;

// The record at a place.
pub fn at(row: &[u8], place: u8) -> Record
    requires { SIZE * place + SIZE ≤ length row.now }
    ensures { result ≡ rows_at row.now place }
{
    request::read(row, request::SIZE * usize::from(place))
}

// Puts a record at a place.
pub fn put(row: &mut [u8], place: u8, r: Record)
    requires { SIZE * place + SIZE ≤ length row.old }
    ensures { row.new ≡ rows_put row.old place r }
{
    request::write(row, request::SIZE * usize::from(place), r);
}

// Puts octets at a place of the data area.
pub fn fill(area: &mut [u8], place: u8, x: &[u8])
    requires { (AREA * place + AREA ≤ length area.old) × (length x.now ≤ AREA) }
    ensures { area.new ≡ rows_fill area.old place x.now }
{
    laid::lay(x, area, queue::AREA * usize::from(place));
}

// Submits a request with its data.
pub fn submit(
    ts: Address,
    q: Queue,
    r: Record,
    x: &[u8],
    row: &mut [u8],
    area: &mut [u8],
) -> Result<Taken, Refusal>
    requires { (Ruled q) × (Lent q row.old area.old) }
    ensures { left (taken_of q r result) row.new area.new ≡ submitted ts.0 q r x.now row.old area.old }
{
    let t = queue::take(ts, q, r, x.len())?;
    put(row, t.place, t.entry);
    fill(area, t.place, x);
    Ok(t)
}

// Confirms the first unconfirmed request, with the reply's data.
pub fn confirm(q: Queue, status: u8, count: u8, x: &[u8], row: &mut [u8], area: &mut [u8]) -> Queue
    requires { (Ruled q) × ((0 < q.unconfirmed) × (Lent q row.old area.old × (length x.now ≤ AREA))) }
    ensures { left result row.new area.new
        ≡ rows_confirm q status count x.now row.old area.old }
{
    let place = queue::current(q);
    let entry = queue::close(at(row, place), status, count, x.len() as u8);
    put(row, place, entry);
    fill(area, place, x);
    queue::confirm(q)
}

// Confirms all unconfirmed requests DS, the first with its count of sendings.
pub fn drain(q: Queue, count: u8, row: &mut [u8], area: &mut [u8]) -> Queue
    requires { (Ruled q) × (Lent q row.old area.old) }
    ensures { left result row.new area.new
        ≡ rows_drain q.unconfirmed count (left q row.old area.old) }
{
    let mut rest = q;
    let mut sendings = count;
    for _ in 0..q.unconfirmed {
        rest = confirm(rest, request::DS, sendings, b"", row, area);
        sendings = 0;
    }
    rest
}

// Hands back the oldest confirmed record and its place's number.
pub fn collect(q: Queue, row: &[u8]) -> Result<Handed, Refusal>
    requires { (Ruled q) × (length row.now ≡ SIZE * q.places) }
    ensures { collected_of result ≡ handed q row.now }
{
    queue::collect(q, at(row, q.first))
}

// Whether submit would take the record some places behind the first unconfirmed one.
fn fit(ts: Address, q: Queue, row: &[u8], k: u8) -> bool
    requires { (Ruled q) × ((length row.now ≡ SIZE * q.places) × (k < q.unconfirmed)) }
    ensures { result ≡ same (unfit ts.0 (pending row.now q k) (pending row.now q k).length) 0 }
{
    let r = at(row, queue::place(q, q.confirmed + k));
    request::unfit(ts, r, usize::from(r.length)).is_ok()
}

// Whether every unconfirmed record is one that submit would take.
pub fn sound(ts: Address, q: Queue, row: &[u8]) -> bool
    requires { (Ruled q) × (length row.now ≡ SIZE * q.places) }
    ensures { result ≡ rows_sound ts.0 q row.now q.unconfirmed }
{
    (0..q.unconfirmed).all(|k| fit(ts, q, row, k))
}
