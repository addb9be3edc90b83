// The station's calls submit and collect for a caller whose row is a slice of record structs: each takes any state,
// any row and any octets, and answers as the calls over a row of octets do. Assumes nothing.
// Kept: twins of station_queues' calls: document 01 wants rows of octets first, then thin functions over structs.
#![tactic(auto)]

ghost use Rattle.std.specs.Prelude.{◌≡◌, length};
ghost use Rattle.refusal.specs.Refusal.{refused};
ghost use Rattle.queue.specs.Queue.{misfit};
ghost use Rattle.rows.specs.Rows.{left};
ghost use Rattle.records.specs.Records.{row_of};
ghost use Rattle.state.specs.World.{rows};
ghost use Rattle.state.specs.Calls.{submit as calls_submit, collect as calls_collect};
ghost use Rattle.state.specs.Told.{accepted_by, handed_back_by, handed_back_of, lent, submitted_of};
ghost use Rattle.station_queues.specs.Decided.{refusal_of};

use queue::Queue;
use refusal::Refusal;
use request::Record;
use state::{Accepted, HandedBack, Priority, State};

// The refusal of submit and collect, if there is one, for a row of records and a data area.
fn refusal(s: &State, q: Queue, row: &[Record], area: &[u8]) -> Result<(), Refusal>
    ensures { refused result
        ≡ refusal_of (misfit q 1 (length row.now) (length area.now)) s.now.core s.now.masters.0 s.now.started.0
        s.now.memory.kept }
{
    station_queues::refusal(
        q,
        s.core,
        &s.masters.0,
        &s.started.0,
        s.memory.kept,
        1,
        row.len(),
        area.len(),
    )
}

// Submits a request with its data to a queue, whose row and data area are lent.
pub fn submit(
    s: State,
    p: Priority,
    r: Record,
    x: &[u8],
    row: &mut [Record],
    area: &mut [u8],
) -> Result<Accepted, Refusal>
    ensures { left (accepted_by s result) (row_of row.new) area.new
        ≡ submitted_of p
        (calls_submit p r x.now (lent p s (rows (row_of row.old) area.old))) }
{
    let q = acts::queue_of(p, s.core);
    refusal(&s, q, row, area)?;
    let own = station_queues::limited(s.core, r);
    let t = records::submit(s.core.ts, q, own, x, row, area);
    station_queues::accepting(s, p, t)
}

// Hands back the oldest confirmed record of a queue, whose row and data area are lent, and frees its place.
pub fn collect(s: State, p: Priority, row: &[Record], area: &[u8]) -> Result<HandedBack, Refusal>
    ensures { handed_back_by s result
        ≡ handed_back_of (calls_collect p (lent p s (rows (row_of row.now) area.now))) }
{
    let asked = acts::queue_of(p, s.core);
    refusal(&s, asked, row, area)?;
    let c = records::collect(asked, row);
    station_queues::returning(s, p, c)
}
