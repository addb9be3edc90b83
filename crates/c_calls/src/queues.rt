// The station's calls start, submit, collect and reset for a caller that holds the station as numbers and lends its
// arrays: the state that they mean goes through the call and is handed over again. Assumes nothing.
// Kept: the arrays are parameters of their own, because the C interface lends other ones to be written in each call.
ghost use Rattle.std.specs.Prelude.{◌≡◌, []};
ghost use Rattle.state.specs.World.{rows, world_of};
ghost use Rattle.state.specs.Calls.{start as calls_start, reset as calls_reset, submit as calls_submit};
ghost use Rattle.state.specs.Calls.{collect as calls_collect};
ghost use Rattle.state.specs.Told.{SameRows, high_in, lent, low_in, started_of, reset_of};
ghost use Rattle.c_core.specs.Handover.{state_in, filled, starting, held, resetting, lodged, submitting, collecting};
ghost use Rattle.c_core.specs.Numbers.{settings_in};

use c_core::handover;
use c_core::handover::{FlatAccepted, FlatCollected, FlatRenewed};
use c_core::numbers::{FlatSettings, Numbers};
use frame::Address;
use request::Record;
use ring::Masters;
use state::{Points, Priority, Rows};
use times::Settings;

// Starts a station with a set of masters, active access points and rows of so many places.
pub fn start(
    settings: FlatSettings,
    ts: u8,
    masters: &[u8; 127],
    started: &mut [u8; 127],
    marks: &mut [u8; 127],
    points: &[u8; 64],
    memory: &mut [u8; 255],
    high: usize,
    low: usize,
) -> FlatRenewed
    ensures { filled result masters.now started.new marks.new points.now
        memory.new
        ≡ starting
        (started_of (calls_start (settings_in settings) ts masters.now points.now high low))
        masters.now started.old marks.old points.now
        memory.old }
{
    let a = station::start(
        Settings::from(settings),
        Address(ts),
        Masters(*masters),
        Points(*points),
        high,
        low,
    );
    if let Ok(s) = a {
        started.copy_from_slice(&s.started.0);
        marks.copy_from_slice(&s.marks.0);
        memory.copy_from_slice(&s.memory.octets);
    }
    handover::started(a)
}

// Submits a request with its data to a queue.
pub fn submit(
    p: Priority,
    n: Numbers,
    masters: &[u8; 127],
    started: &[u8; 127],
    marks: &[u8; 127],
    points: &[u8; 64],
    memory: &[u8; 255],
    r: Record,
    x: &[u8],
    row: &mut [u8],
    area: &mut [u8],
) -> FlatAccepted
    ensures { lodged result masters.now started.now marks.now points.now
        memory.now row.new area.new
        ≡ submitting n p
        (calls_submit p r x.now
        (lent p
        (state_in n masters.now started.now marks.now points.now
        memory.now) (rows row.old area.old))) }
{
    let s = handover::state_in(n, masters, started, marks, points, memory);
    handover::accepted(n, station::submit(s, p, r, x, row, area))
}

// Hands back the oldest confirmed record of a queue and frees its place.
pub fn collect(
    p: Priority,
    n: Numbers,
    masters: &[u8; 127],
    started: &[u8; 127],
    marks: &[u8; 127],
    points: &[u8; 64],
    memory: &[u8; 255],
    row: &[u8],
    area: &[u8],
) -> FlatCollected
    ensures { lodged result masters.now started.now marks.now points.now
        memory.now row.now area.now
        ≡ collecting n p
        (calls_collect p
        (lent p
        (state_in n masters.now started.now marks.now points.now
        memory.now) (rows row.now area.now))) }
{
    let s = handover::state_in(n, masters, started, marks, points, memory);
    handover::collected(n, station::collect(s, p, row, area))
}

// Resets a station: confirms all unconfirmed requests DS, and begins afresh as it was started.
pub fn reset(
    n: Numbers,
    masters: &mut [u8; 127],
    started: &[u8; 127],
    marks: &mut [u8; 127],
    points: &[u8; 64],
    memory: &[u8; 255],
    rows: &mut Rows,
) -> FlatRenewed
    ensures held { held result masters.new started.now marks.new points.now memory.now (high_in rows.new)
        (low_in rows.new) []
        ≡ resetting n
        (reset_of
        (calls_reset
        (world_of (state_in n masters.old started.now marks.old points.now memory.now) (high_in rows.old)
        (low_in rows.old)))) }
    ensures same { SameRows rows.old rows.new }
{
    let s = handover::state_in(n, masters, started, marks, points, memory);
    let a = station::reset(s, rows);
    if let Ok(s) = a {
        masters.copy_from_slice(&s.masters.0);
        marks.copy_from_slice(&s.marks.0);
    }
    handover::renewed(n, a)
}
