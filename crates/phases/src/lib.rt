// What slot expiry, "sent" and, while a reply is awaited, a frame do in each phase. Assumes nothing.
#![tactic(auto)]

ghost use Rattle.std.specs.Prelude.{◌≡◌, ◌<◌, ◌≤◌, length};
ghost use Rattle.frame.specs.Reading.{read as reading_read};
ghost use Rattle.state.specs.World.{queue_of};
ghost use Rattle.state.specs.Refusals.{Sited};
ghost use Rattle.state.specs.Calls.{slot_in, sent_in, awaited_read};
ghost use Rattle.state.specs.Told.{Does, high_in, low_in, site_in, SameRows};
ghost use Rattle.phases.specs.Underway.{Underway};

mod judge;

use clock::BitTime;
use state::{Core, Moved, Outcome, Phase, Rows};

// Slot expiry.
#[tactic(auto, unfolding(state::specs::Calls::slot_in, state::specs::World::still, state::specs::Told::telling, state::specs::Told::untold, laid::specs::Laid::laid))]
pub fn slot_in(
    clock: BitTime,
    c: Core,
    masters: &mut [u8; 127],
    marks: &mut [u8; 127],
    rows: &mut Rows,
    out: &mut [u8],
) -> Moved
    requires { (Sited c (high_in rows.old) (low_in rows.old))
        × ((Underway c) × (255 ≤ length out.old)) }
    ensures does { Does
        (slot_in c.doing.phase clock.0 (site_in c masters.old marks.old rows.old)) out.old result masters.new marks.new
        (high_in rows.new) (low_in rows.new) out.new }
    ensures same { SameRows rows.old rows.new }
{
    match c.doing.phase {
        Phase::Idle | Phase::Sdn | Phase::ToSelf => tokens::quiet(c),
        Phase::Awaited => conclude::retry(clock, c, masters, marks, rows, out),
        Phase::Check => tokens::recheck(c, masters, out),
    }
}

// What was to be sent went out.
#[tactic(auto, unfolding(state::specs::Calls::sent_in, state::specs::World::still, state::specs::Told::telling, state::specs::Told::untold, laid::specs::Laid::laid))]
pub fn sent_in(
    clock: BitTime,
    c: Core,
    masters: &[u8; 127],
    marks: &mut [u8; 127],
    rows: &mut Rows,
    out: &mut [u8],
) -> Moved
    requires { (Sited c (high_in rows.old) (low_in rows.old))
        × ((Underway c) × (255 ≤ length out.old)) }
    ensures does { Does
        (sent_in c.doing.phase clock.0 (site_in c masters.now marks.old rows.old)) out.old result masters.now marks.new
        (high_in rows.new) (low_in rows.new) out.new }
    ensures same { SameRows rows.old rows.new }
{
    match c.doing.phase {
        Phase::Idle | Phase::Awaited | Phase::Check => tokens::quiet(c),
        Phase::Sdn => conclude::finish(Outcome::Gone, b"", clock, c, masters, marks, rows, out),
        Phase::ToSelf => serve::begin(clock, c, masters, marks, rows.shared(), out),
    }
}

// A frame while a reply is awaited.
#[tactic(auto, unfolding(state::specs::Calls::awaited_read, frame::specs::Reading::answered, frame::specs::Reading::shown, state::specs::Refusals::in_flight, state::specs::Refusals::row_by, state::specs::Request::record_of, state::specs::Request::record_in, state::specs::World::rows_of))]
pub fn awaited(
    clock: BitTime,
    s: &[u8],
    c: Core,
    masters: &[u8; 127],
    marks: &mut [u8; 127],
    rows: &mut Rows,
    out: &mut [u8],
) -> Moved
    requires { (Sited c (high_in rows.old) (low_in rows.old))
        × ((0 < (queue_of c.doing.served c).unconfirmed) × (255 ≤ length out.old)) }
    ensures does { Does
        (awaited_read clock.0 s.now (reading_read s.now) (site_in c masters.now marks.old rows.old)) out.old result
        masters.now marks.new (high_in rows.new) (low_in rows.new) out.new }
    ensures same { SameRows rows.old rows.new }
{
    let Ok((f, p)) = read::read(s) else {
        return conclude::retry(clock, c, masters, marks, rows, out);
    };
    let r = refusals::served(c, rows.shared());
    let verdict = judge::judge(c.ts, r, f, p.count);
    let x = view::data_of(s, p);
    conclude::conclude(clock, x, verdict, c, masters, marks, rows, out)
}
