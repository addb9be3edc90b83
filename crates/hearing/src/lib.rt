// What a frame does in each phase. Assumes nothing.
#![tactic(auto)]

ghost use Rattle.std.specs.Prelude.{Ok};
ghost use Rattle.state.specs.Calls.{heard};
ghost use Rattle.state.specs.Told.{heard_by, high_in, low_in, SameRows};
ghost use Rattle.phases.specs.Underway.{Underway};
ghost use Rattle.hearing.specs.Hears.{Hears, Listening};

pub mod idle;

use answering::Caller;
use clock::BitTime;
use state::{Core, Heard, Kept, Phase, Rows};

// A frame, by the phase.
#[tactic(auto, unfolding(state::specs::Calls::heard, state::specs::Calls::nothing, state::specs::Told::standing, state::specs::Told::heard_of, state::specs::Told::heard_by, state::specs::Told::telling, state::specs::Told::untold, laid::specs::Laid::laid))]
pub fn hear(
    clock: BitTime,
    caller: Caller,
    s: &[u8],
    c: Core,
    k: Kept,
    masters: &mut [u8; 127],
    marks: &mut [u8; 127],
    points: &[u8; 64],
    octets: &mut [u8; 255],
    rows: &mut Rows,
    out: &mut [u8],
) -> Heard
    requires { (Listening c k (high_in rows.old) (low_in rows.old) caller.high.now caller.low.now out.old)
        × (Underway c) }
    ensures hears { Hears
        (heard c.doing.phase clock.0 caller.entry.room caller.entry.high.now caller.entry.low.now s.now) c k
        masters.old marks.old points.now octets.old (high_in rows.old) (low_in rows.old) out.old
        (heard_by c k (Ok result)) masters.new marks.new octets.new (high_in rows.new) (low_in rows.new) out.new }
    ensures same { SameRows rows.old rows.new }
{
    let core = match c.doing.phase {
        Phase::Idle => c,
        Phase::Awaited => {
            let m = phases::awaited(clock, s, c, masters, marks, rows, out);
            return idle::moved(m, k);
        }
        Phase::Sdn | Phase::ToSelf => return idle::moved(tokens::quiet(c), k),
        Phase::Check => acts::with_doing(acts::resting(c.doing), c),
    };
    idle::idle_read(
        clock,
        caller,
        s,
        core,
        k,
        masters,
        marks,
        points,
        octets,
        rows.shared(),
        out,
    )
}
