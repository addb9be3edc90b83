// The station's call reset: it takes any state and any rows, and answers. Assumes nothing.
ghost use Rattle.std.specs.Prelude.{◌≡◌, []};
ghost use Rattle.refusal.specs.Refusal.{refused};
ghost use Rattle.state.specs.World.{world_of};
ghost use Rattle.state.specs.Calls.{count_of, begun as calls_begun, reset as calls_reset};
ghost use Rattle.state.specs.Told.{SameRows, high_in, leaves, low_in, renewed_by, reset_of};
ghost use Rattle.station_start.specs.Refused.{refusal_of};

use super::starting;
use refusal::Refusal;
use state::{Core, Kept, Phase, Priority, Rows, State};

// The sendings so far of a request that is being sent.
#[tactic(auto, unfolding(state::specs::Calls::begun))]
fn begun(phase: Phase, n: u8) -> u8
    ensures { result ≡ calls_begun phase n }
{
    match phase {
        Phase::Awaited | Phase::Sdn => n,
        Phase::Idle | Phase::Check | Phase::ToSelf => 0,
    }
}

// The sendings of a queue's first unconfirmed request: 0 if it is not being sent.
#[tactic(auto, unfolding(state::specs::Calls::count_of, state::specs::Calls::sendings_of))]
fn count_of(p: Priority, c: Core) -> u8
    ensures { result ≡ count_of p c }
{
    let n = begun(c.doing.phase, c.doing.sendings);
    match (c.doing.served, p) {
        (Priority::High, Priority::High) | (Priority::Low, Priority::Low) => n,
        _ => 0,
    }
}

// The refusal of reset, if there is one.
#[tactic(auto, unfolding(choice::specs::Choice::pick, choice::specs::Choice::said, refusal::specs::Refusal::number, refusal::specs::Refusal::refused, crate::specs::Refused::refusal_of))]
fn refusal(
    c: Core,
    masters: &[u8; 127],
    started: &[u8; 127],
    k: Kept,
    rows: &Rows,
) -> Result<(), Refusal>
    ensures { refused result ≡ refusal_of c masters.now started.now k (high_in rows.now) (low_in rows.now) }
{
    if refusals::unlent(c.high, rows.high, rows.high_area)
        || refusals::unlent(c.low, rows.low, rows.low_area)
    {
        return Err(Refusal::Row);
    }
    if refusals::lawless(c, masters, started, k) {
        return Err(Refusal::State);
    }
    Ok(())
}

// Resets a station: confirms all unconfirmed requests DS, and begins afresh as it was started.
pub fn reset(s: State, rows: &mut Rows) -> Result<State, Refusal>
    ensures told { leaves (renewed_by s result) (high_in rows.new) (low_in rows.new) []
        ≡ reset_of (calls_reset (world_of s (high_in rows.old) (low_in rows.old))) }
    ensures same { SameRows rows.old rows.new }
{
    let c = s.core;
    refusal(c, &s.masters.0, &s.started.0, s.memory.kept, rows)?;
    let first = count_of(Priority::High, c);
    let second = count_of(Priority::Low, c);
    let high = rows::drain(c.high, first, rows.high, rows.high_area);
    let low = rows::drain(c.low, second, rows.low, rows.low_area);
    Ok(starting::fresh(
        c.settings,
        c.ts,
        s.started,
        s.points,
        high,
        low,
        s.memory.octets,
    ))
}
