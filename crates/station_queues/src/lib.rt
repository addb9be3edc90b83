// The station's calls submit and collect: each takes any state, any row and any octets, and answers. Assumes nothing.
#![tactic(auto)]

ghost use Rattle.std.specs.Prelude.{◌≡◌, ◌≤◌, length};
ghost use Rattle.refusal.specs.Refusal.{refused};
ghost use Rattle.request.specs.Record.{SIZE, limited as record_limited};
ghost use Rattle.queue.specs.Queue.{taken_of, collected_of, misfit};
ghost use Rattle.rows.specs.Rows.{left};
ghost use Rattle.state.specs.World.{rows};
ghost use Rattle.state.specs.Calls.{submit as calls_submit, collect as calls_collect};
ghost use Rattle.state.specs.Told.{accepted_by, hand_of, handed_back_by, handed_back_of, lent, submitted_of};
ghost use Rattle.station_queues.specs.Decided.{refusal_of, accepted_for};

use queue::{Handed, Queue, Taken};
use refusal::Refusal;
use request::Record;
use state::{Accepted, Core, HandedBack, Kept, Priority, State};

// The refusal of submit and collect, if there is one: for the state, or for a row of so many octets or records, so many
// for each place, and a data area of so many octets.
#[tactic(auto, unfolding(choice::specs::Choice::pick, choice::specs::Choice::said, refusal::specs::Refusal::number, refusal::specs::Refusal::refused, crate::specs::Decided::refusal_of))]
pub fn refusal(
    q: Queue,
    c: Core,
    masters: &[u8; 127],
    started: &[u8; 127],
    k: Kept,
    each: usize,
    row: usize,
    area: usize,
) -> Result<(), Refusal>
    requires { each ≤ 255 }
    ensures { refused result ≡ refusal_of (misfit q each row area) c masters.now started.now k }
{
    if queue::misfit(q, each, row, area) {
        return Err(Refusal::Row);
    }
    if refusals::lawless(c, masters, started, k) {
        return Err(Refusal::State);
    }
    Ok(())
}

// A record with the limit that it goes by at a station of that core.
pub fn limited(c: Core, r: Record) -> Record
    requires { c.settings.retries.0 ≤ 15 }
    ensures { result ≡ record_limited c.settings.retries.0 r }
{
    request::limited(c.settings.retries.0 as u8, r)
}

// What submit answers, by what it decided. The clause is of every queue and record, since a refusal does not say of
// which it was decided.
#[tactic(auto, unfolding(choice::specs::Choice::pick, choice::specs::Choice::same, queue::specs::Queue::accepted, queue::specs::Queue::refuse, queue::specs::Queue::taken_of, state::specs::Told::accepted_by, state::specs::World::state_with, crate::specs::Decided::accepted_for))]
pub fn accepting(s: State, p: Priority, t: Result<Taken, Refusal>) -> Result<Accepted, Refusal>
    ensures { (q : Queue) (r : Record) → accepted_by s result ≡ accepted_for p (taken_of q r t) s }
{
    let t = t?;
    Ok(Accepted {
        state: State {
            core: acts::with_queue(p, t.queue, s.core),
            ..s
        },
        place: t.place,
    })
}

// The same for a row of octets and a data area, in a state.
fn refused_in(s: &State, q: Queue, row: &[u8], area: &[u8]) -> Result<(), Refusal>
    ensures { refused result
        ≡ refusal_of (misfit q SIZE (length row.now) (length area.now)) s.now.core s.now.masters.0
        s.now.started.0 s.now.memory.kept }
{
    // Copies: of them the compiler sees that they are what C lent, and leaves out the copy of the whole state.
    let masters = s.masters.0;
    let started = s.started.0;
    refusal(
        q,
        s.core,
        &masters,
        &started,
        s.memory.kept,
        request::SIZE,
        row.len(),
        area.len(),
    )
}

// Submits a request with its data to a queue, whose row and data area are lent.
pub fn submit(
    s: State,
    p: Priority,
    r: Record,
    x: &[u8],
    row: &mut [u8],
    area: &mut [u8],
) -> Result<Accepted, Refusal>
    ensures { left (accepted_by s result) row.new area.new
        ≡ submitted_of p
        (calls_submit p r x.now (lent p s (rows row.old area.old))) }
{
    let q = acts::queue_of(p, s.core);
    refused_in(&s, q, row, area)?;
    let t = rows::submit(s.core.ts, q, limited(s.core, r), x, row, area);
    accepting(s, p, t)
}

// What collect answers, by what it decided.
#[tactic(auto, unfolding(queue::specs::Queue::collected_of, state::specs::Told::hand_of, state::specs::Told::handed_back_by, state::specs::World::state_with))]
pub fn returning(s: State, p: Priority, c: Result<Handed, Refusal>) -> Result<HandedBack, Refusal>
    ensures { handed_back_by s result ≡ hand_of p (collected_of c) s }
{
    let h = c?;
    Ok(HandedBack {
        state: State {
            core: acts::with_queue(p, h.queue, s.core),
            ..s
        },
        place: h.place,
        entry: h.entry,
    })
}

// Hands back the oldest confirmed record of a queue, whose row and data area are lent, and frees its place.
pub fn collect(s: State, p: Priority, row: &[u8], area: &[u8]) -> Result<HandedBack, Refusal>
    ensures { handed_back_by s result ≡ handed_back_of (calls_collect p (lent p s (rows row.now area.now))) }
{
    let asked = acts::queue_of(p, s.core);
    refused_in(&s, asked, row, area)?;
    let c = rows::collect(asked, row);
    returning(s, p, c)
}
