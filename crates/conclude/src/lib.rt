// How a request ends, and what follows: the acts that change rows and marks. Assumes nothing.
#![tactic(auto)]

ghost use Rattle.std.specs.Prelude.{◌≡◌, ◌<◌, ◌≤◌, [], length};
ghost use Rattle.queue.specs.Queue.{AREA};
ghost use Rattle.rows.specs.Rows.{Lent, left, confirm as rows_confirm};
ghost use Rattle.state.specs.World.{rows, queue_of, with_queue};
ghost use Rattle.state.specs.Request.{record_in, status_of, marks_after};
ghost use Rattle.state.specs.Hold.{ended, retry as hold_retry, given_up, concluded};
ghost use Rattle.state.specs.Refusals.{Lawful, Sited};
ghost use Rattle.state.specs.Told.{Closes, Does, high_in, low_in, site_in, SameRows};

use clock::BitTime;
use serve::exchange;
use state::{Core, Moved, Outcome, Priority, Rows, Verdict};

// Confirms the request of a queue that is being sent: the row, the data, the mark of its destination, and the core.
#[tactic(auto, unfolding(state::specs::Request::record_in))]
fn close_in(
    p: Priority,
    o: Outcome,
    x: &[u8],
    c: Core,
    marks: &mut [u8; 127],
    row: &mut [u8],
    area: &mut [u8],
) -> Core
    requires { (Lawful c)
        × ((Lent (queue_of p c) row.old area.old) × ((0 < (queue_of p c).unconfirmed) × (length x.now ≤ AREA))) }
    ensures area_after { left result row.new area.new
        ≡ (let l = rows_confirm (queue_of p c) (status_of o) c.doing.sendings x.now row.old
        area.old in left (with_queue p l.answer c) l.row l.area) }
    ensures marks_after { marks.new
        ≡ marks_after o (record_in (queue_of p c) (rows row.old area.old)).destination.0
        marks.old }
{
    let q = acts::queue_of(p, c);
    let r = rows::at(row, queue::current(q));
    exchange::mark(o, r.destination, marks);
    let confirmed = rows::confirm(q, acts::status_of(o), c.doing.sendings, x, row, area);
    acts::with_queue(p, confirmed, c)
}

// Confirms the request that is being sent.
#[tactic(auto, unfolding(state::specs::Request::close, state::specs::Request::close_of, state::specs::World::done, state::specs::World::with_rows, state::specs::World::with_marks, state::specs::World::with_core, state::specs::Request::record_of, state::specs::World::rows_of))]
fn close(o: Outcome, x: &[u8], c: Core, marks: &mut [u8; 127], rows: &mut Rows) -> Core
    requires { (Sited c (high_in rows.old) (low_in rows.old))
        × ((0 < (queue_of c.doing.served c).unconfirmed) × (length x.now ≤ AREA)) }
    ensures closes { Closes o x.now c marks.old (high_in rows.old) (low_in rows.old) result marks.new
        (high_in rows.new) (low_in rows.new) }
    ensures same { SameRows rows.old rows.new }
{
    match c.doing.served {
        Priority::High => close_in(Priority::High, o, x, c, marks, rows.high, rows.high_area),
        Priority::Low => close_in(Priority::Low, o, x, c, marks, rows.low, rows.low_area),
    }
}

// Ends a request, and goes on with the hold.
pub fn finish(
    o: Outcome,
    x: &[u8],
    clock: BitTime,
    c: Core,
    masters: &[u8; 127],
    marks: &mut [u8; 127],
    rows: &mut Rows,
    out: &mut [u8],
) -> Moved
    requires { (Sited c (high_in rows.old) (low_in rows.old))
        × ((0 < (queue_of c.doing.served c).unconfirmed) × ((length x.now ≤ AREA) × (255 ≤ length out.old))) }
    ensures does { Does
        (ended o x.now clock.0 (site_in c masters.now marks.old rows.old)) out.old result masters.now marks.new
        (high_in rows.new) (low_in rows.new) out.new }
    ensures same { SameRows rows.old rows.new }
{
    let core = close(o, x, c, marks, rows);
    serve::choose(false, clock, core, masters, marks, rows.shared(), out)
}

// A refused frame, any other reply or slot expiry while a reply is awaited: the same again, up to the limit of the
// request's record.
#[tactic(auto, unfolding(choice::specs::Choice::pick, choice::specs::Choice::less, state::specs::Hold::retry, state::specs::Refusals::in_flight, state::specs::Refusals::row_by, state::specs::Request::record_of, state::specs::Request::record_in, state::specs::World::rows_of))]
pub fn retry(
    clock: BitTime,
    c: Core,
    masters: &[u8; 127],
    marks: &mut [u8; 127],
    rows: &mut Rows,
    out: &mut [u8],
) -> Moved
    requires { (Sited c (high_in rows.old) (low_in rows.old))
        × ((0 < (queue_of c.doing.served c).unconfirmed) × (255 ≤ length out.old)) }
    ensures does { Does
        (hold_retry clock.0 (site_in c masters.now marks.old rows.old)) out.old result masters.now marks.new
        (high_in rows.new) (low_in rows.new) out.new }
    ensures same { SameRows rows.old rows.new }
{
    let r = refusals::served(c, rows.shared());
    if r.limit < c.doing.sendings {
        finish(Outcome::Lost, b"", clock, c, masters, marks, rows, out)
    } else {
        serve::again(c, masters, marks, rows.shared(), out)
    }
}

// A request or token while a reply is awaited: the request is lost, and the hold is over.
fn give_up(
    c: Core,
    masters: &[u8; 127],
    marks: &mut [u8; 127],
    rows: &mut Rows,
    out: &mut [u8],
) -> Moved
    requires { (Sited c (high_in rows.old) (low_in rows.old))
        × ((0 < (queue_of c.doing.served c).unconfirmed) × (255 ≤ length out.old)) }
    ensures does { Does
        (given_up (site_in c masters.now marks.old rows.old)) out.old result masters.now marks.new
        (high_in rows.new) (low_in rows.new) out.new }
    ensures same { SameRows rows.old rows.new }
{
    let core = close(Outcome::Lost, b"", c, marks, rows);
    Moved {
        core: acts::with_doing(acts::resting(core.doing), core),
        length: 0,
        wait: BitTime(0),
    }
}

// A good frame while a reply is awaited, by what it is to the request.
#[tactic(auto, unfolding(state::specs::Hold::concluded))]
pub fn conclude(
    clock: BitTime,
    x: &[u8],
    v: Verdict,
    c: Core,
    masters: &[u8; 127],
    marks: &mut [u8; 127],
    rows: &mut Rows,
    out: &mut [u8],
) -> Moved
    requires { (Sited c (high_in rows.old) (low_in rows.old))
        × ((0 < (queue_of c.doing.served c).unconfirmed) × ((length x.now ≤ AREA) × (255 ≤ length out.old))) }
    ensures does { Does
        (concluded clock.0 x.now v (site_in c masters.now marks.old rows.old)) out.old result masters.now marks.new
        (high_in rows.new) (low_in rows.new) out.new }
    ensures same { SameRows rows.old rows.new }
{
    match v {
        Verdict::Plausible(status) => {
            finish(
                Outcome::Replied(status),
                x,
                clock,
                c,
                masters,
                marks,
                rows,
                out,
            )
        }
        Verdict::Vain => retry(clock, c, masters, marks, rows, out),
        Verdict::Foreign => give_up(c, masters, marks, rows, out),
    }
}
