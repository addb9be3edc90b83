// What a hold sends: a queue's first request, the same again, or the token. The core goes by value; rows, marks and
// the set of masters are read, and the output is written. Assumes nothing.
#![tactic(auto)]

ghost use Rattle.std.specs.Prelude.{◌≡◌, ◌<◌, ◌≤◌, length};
ghost use Rattle.ring.specs.Ring.{next_of};
ghost use Rattle.laid.specs.Laid.{Lays};
ghost use Rattle.state.specs.World.{rows, with_doing, queue_of};
ghost use Rattle.state.specs.Request.{record_in, octets_in, send_core, send_events, again_events, once};
ghost use Rattle.state.specs.Request.{send as request_send, again as request_again};
ghost use Rattle.state.specs.Pass.{pass_core, pass_events};
ghost use Rattle.state.specs.Hold.{choose as hold_choose, begin as hold_begin};
ghost use Rattle.state.specs.Refusals.{Lawful, Sited, Ready};
ghost use Rattle.state.specs.Told.{Sends, Does, high_of, low_of, site_of_shared};

pub mod exchange;

use clock::BitTime;
use frame::Address;
use state::{Choice, Core, Moved, Priority, SharedRows};
use times::Sending;

// Lays the first unconfirmed request of a queue.
fn lay(p: Priority, c: Core, marks: &[u8; 127], row: &[u8], area: &[u8], out: &mut [u8]) -> usize
    requires { (Ready p c (rows row.now area.now)) × (255 ≤ length out.old) }
    ensures { Lays out.old 0
        (octets_in c.ts p (queue_of p c) marks.now (rows row.now area.now)) 255 result
        out.new }
{
    let place = queue::current(acts::queue_of(p, c));
    let r = rows::at(row, place);
    let m = exchange::mark_of(marks, r.destination);
    let data = read::part(
        area,
        queue::AREA * usize::from(place),
        usize::from(r.length),
    );
    exchange::lay_request(c.ts, p, r, m, data, out)
}

// The service of the first unconfirmed request of a queue.
#[tactic(auto, unfolding(state::specs::Request::record_in))]
fn service(p: Priority, c: Core, row: &[u8], area: &[u8]) -> u8
    requires { Ready p c (rows row.now area.now) }
    ensures { result ≡ (record_in (queue_of p c) (rows row.now area.now)).service }
{
    rows::at(row, queue::current(acts::queue_of(p, c))).service
}

// Sends the first unconfirmed request of a queue for the first time.
#[tactic(auto, unfolding(state::specs::Request::send_core, state::specs::Request::send_events, state::specs::Told::telling, state::specs::Told::adds))]
fn send(p: Priority, c: Core, marks: &[u8; 127], row: &[u8], area: &[u8], out: &mut [u8]) -> Moved
    requires { (Ready p c (rows row.now area.now)) × (255 ≤ length out.old) }
    ensures { Sends (send_core p c (rows row.now area.now))
        (send_events p c marks.now (rows row.now area.now)) out.old result
        out.new }
{
    let length = lay(p, c, marks, row, area, out);
    let wait = acts::wait_after(c);
    let doing = acts::sending(p, service(p, c, row, area));
    Moved {
        core: acts::with_doing(doing, c),
        length,
        wait,
    }
}

// Sends the request of a queue that is being sent once more.
#[tactic(auto, unfolding(state::specs::Request::again_events, state::specs::Told::telling, state::specs::Told::adds))]
fn send_again(
    p: Priority,
    c: Core,
    marks: &[u8; 127],
    row: &[u8],
    area: &[u8],
    out: &mut [u8],
) -> Moved
    requires { (Ready p c (rows row.now area.now)) × ((c.doing.sendings < 255) × (255 ≤ length out.old)) }
    ensures { Sends (with_doing (once c.doing) c)
        (again_events p c marks.now (rows row.now area.now)) out.old result
        out.new }
{
    let length = lay(p, c, marks, row, area, out);
    let wait = acts::wait_for(c, Sending::Other);
    let doing = acts::once(c.doing);
    Moved {
        core: acts::with_doing(doing, c),
        length,
        wait,
    }
}

// Sends the same octets again.
#[tactic(auto, unfolding(state::specs::Request::again, state::specs::Request::again_of, state::specs::World::rows_of, state::specs::World::done, state::specs::World::with_core))]
pub fn again(
    c: Core,
    masters: &[u8; 127],
    marks: &[u8; 127],
    rows: SharedRows,
    out: &mut [u8],
) -> Moved
    requires { (Sited c (high_of rows) (low_of rows))
        × ((0 < (queue_of c.doing.served c).unconfirmed)
        × ((c.doing.sendings < 255) × (255 ≤ length out.old))) }
    ensures { Does
        (request_again (site_of_shared c masters.now marks.now rows.entry)) out.old result masters.now
        marks.now (high_of rows.entry) (low_of rows.entry) out.new }
{
    match c.doing.served {
        Priority::High => send_again(Priority::High, c, marks, rows.high, rows.high_area, out),
        Priority::Low => send_again(Priority::Low, c, marks, rows.low, rows.low_area, out),
    }
}

// Sends the first request of one of the queues.
#[tactic(auto, unfolding(state::specs::Request::send, state::specs::World::rows_of, state::specs::World::done, state::specs::World::with_core))]
fn serve(
    p: Priority,
    c: Core,
    masters: &[u8; 127],
    marks: &[u8; 127],
    rows: SharedRows,
    out: &mut [u8],
) -> Moved
    requires { (Sited c (high_of rows) (low_of rows))
        × ((0 < (queue_of p c).unconfirmed) × (255 ≤ length out.old)) }
    ensures { Does
        (request_send p (site_of_shared c masters.now marks.now rows.entry)) out.old result masters.now
        marks.now (high_of rows.entry) (low_of rows.entry) out.new }
{
    match p {
        Priority::High => send(Priority::High, c, marks, rows.high, rows.high_area, out),
        Priority::Low => send(Priority::Low, c, marks, rows.low, rows.low_area, out),
    }
}

// NS of the station.
pub fn next(c: Core, masters: &[u8; 127]) -> Address
    requires { c.ts.0 < 127 }
    ensures { (result.0 ≡ next_of masters.now c.ts.0) × (result.0 < 127) }
{
    ring::next(masters, c.ts)
}

// Passes the token to a station.
#[tactic(auto, unfolding(state::specs::Pass::pass_core, state::specs::Pass::pass_events, state::specs::Pass::token_to, state::specs::Told::telling, state::specs::Told::adds))]
pub fn pass_to(ns: Address, c: Core, out: &mut [u8]) -> Moved
    requires { (Lawful c) × ((ns.0 < 127) × (255 ≤ length out.old)) }
    ensures { Sends (pass_core ns.0 c) (pass_events ns.0 c) out.old result out.new }
{
    let length = exchange::lay_token(ns, c.ts, out);
    let wait = acts::wait_after(c);
    let doing = acts::passing(ns, c);
    Moved {
        core: acts::with_doing(doing, c),
        length,
        wait,
    }
}

// Kept: whether the hold starts is a truth value, as in the definition `choose`.
// Goes on with a hold, at its start or later: the first request of a queue, or the pass of the token.
#[tactic(auto, unfolding(state::specs::Hold::choose, state::specs::Hold::chosen, state::specs::Hold::finish, state::specs::Pass::pass, state::specs::Pass::ns, state::specs::World::and_then, state::specs::World::done, state::specs::World::with_core, state::specs::Told::telling, state::specs::Told::adds))]
pub fn choose(
    starts: bool,
    clock: BitTime,
    c: Core,
    masters: &[u8; 127],
    marks: &[u8; 127],
    rows: SharedRows,
    out: &mut [u8],
) -> Moved
    requires { (Sited c (high_of rows) (low_of rows)) × (255 ≤ length out.old) }
    ensures { Does
        (hold_choose starts clock.0 (site_of_shared c masters.now marks.now rows.entry)) out.old result masters.now
        marks.now (high_of rows.entry) (low_of rows.entry) out.new }
{
    match acts::choice(starts, c, clock) {
        Choice::Serve(p) => serve(p, c, masters, marks, rows, out),
        Choice::PassOn => pass_to(next(c, masters), c, out),
    }
}

// Begins a hold.
#[tactic(auto, unfolding(state::specs::Hold::begin, state::specs::World::and_then, state::specs::World::done, state::specs::World::with_core, state::specs::Told::telling, state::specs::Told::adds))]
pub fn begin(
    clock: BitTime,
    c: Core,
    masters: &[u8; 127],
    marks: &[u8; 127],
    rows: SharedRows,
    out: &mut [u8],
) -> Moved
    requires { (Sited c (high_of rows) (low_of rows)) × (255 ≤ length out.old) }
    ensures { Does
        (hold_begin clock.0 (site_of_shared c masters.now marks.now rows.entry)) out.old result masters.now
        marks.now (high_of rows.entry) (low_of rows.entry) out.new }
{
    choose(
        true,
        clock,
        acts::beginning(clock, c),
        masters,
        marks,
        rows,
        out,
    )
}
