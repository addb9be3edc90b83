// The station's refusals 20, 21, 22 and 29: what start refuses, and what every other call refuses in a state, in lent
// rows and in buffers. Assumes nothing.
#![tactic(auto, unfolding(choice::specs::Choice::pick, choice::specs::Choice::less, choice::specs::Choice::same, choice::specs::Choice::said, refusal::specs::Refusal::refused, refusal::specs::Refusal::number, state::specs::World::queue_of, state::specs::Refusals::unstartable, state::specs::Refusals::unlent, state::specs::Refusals::cramped, state::specs::Refusals::unstarted, state::specs::Refusals::misaddressed, state::specs::Refusals::overcounted, state::specs::Refusals::odd_in, state::specs::Refusals::lawless, state::specs::Refusals::sound_in, state::specs::Refusals::unlike_in, state::specs::Refusals::row_by, state::specs::Refusals::in_flight, state::specs::Refusals::unsound, state::specs::Refusals::refusal_in))]

ghost use Rattle.std.specs.Prelude.{◌≡◌, ◌*◌, ◌<◌, length};
ghost use Rattle.choice.specs.Choice.{same};
ghost use Rattle.ring.specs.Ring.{next_of};
ghost use Rattle.request.specs.Record.{SIZE};
ghost use Rattle.refusal.specs.Refusal.{refused};
ghost use Rattle.state.specs.World.{queue_of};
ghost use Rattle.state.specs.Told.{high_of, low_of};
ghost use Rattle.state.specs.Refusals.{Lawful, odd_in, unlike_in, in_flight, refusal_in};
ghost use Rattle.state.specs.Refusals.{unstartable as refusals_unstartable, unlent as refusals_unlent};
ghost use Rattle.state.specs.Refusals.{cramped as refusals_cramped, unstarted as refusals_unstarted};
ghost use Rattle.state.specs.Refusals.{misaddressed as refusals_misaddressed, overcounted as refusals_overcounted};
ghost use Rattle.state.specs.Refusals.{lawless as refusals_lawless, unsound as refusals_unsound};

use frame::Address;
use queue::Queue;
use refusal::Refusal;
use request::Record;
use state::{Core, Kept, Phase, Priority, SharedRows, UPDATE};
use times::Settings;

// Whether start refuses settings, TS or the set of masters.
pub fn unstartable(s: Settings, ts: Address, masters: &[u8; 127]) -> bool
    ensures { result ≡ refusals_unstartable s ts.0 masters.now }
{
    times::unruly(s) || 126 < ts.0 || !ring::member(masters, ts)
}

fn unstarted(c: Core, masters: &[u8; 127], started: &[u8; 127]) -> bool
    ensures { result ≡ refusals_unstarted c masters.now started.now }
{
    unstartable(c.settings, c.ts, masters) || !ring::member(started, c.ts)
}

fn misaddressed(ps: u8, stranger: u8, source: u8) -> bool
    ensures { result ≡ refusals_misaddressed ps stranger source }
{
    126 < ps || state::NOBODY < stranger || state::NOBODY < source
}

fn overcounted(high: Queue, low: Queue, reply: u16) -> bool
    ensures { result ≡ refusals_overcounted high low reply }
{
    queue::overfull(high) || queue::overfull(low) || 255 < reply
}

fn waits(p: Priority, c: Core) -> bool
    ensures { result ≡ same (queue_of p c).unconfirmed 0 }
{
    acts::queue_of(p, c).unconfirmed == 0
}

// Whether the token goes to this station itself.
fn alone(c: Core, masters: &[u8; 127]) -> bool
    requires { c.ts.0 < 127 }
    ensures { result ≡ same (next_of masters.now c.ts.0) c.ts.0 }
{
    ring::next(masters, c.ts) == c.ts
}

fn odd(c: Core, masters: &[u8; 127]) -> bool
    requires { c.ts.0 < 127 }
    ensures { result ≡ odd_in c.doing.phase c masters.now }
{
    match c.doing.phase {
        Phase::Idle => false,
        Phase::Awaited | Phase::Sdn => waits(c.doing.served, c),
        Phase::Check => alone(c, masters),
        Phase::ToSelf => !alone(c, masters),
    }
}

// Whether a state is one that no start and no call makes: refusal 29, by the state alone.
pub fn lawless(c: Core, masters: &[u8; 127], started: &[u8; 127], k: Kept) -> bool
    ensures { result ≡ refusals_lawless c masters.now started.now k }
{
    unstarted(c, masters, started)
        || misaddressed(c.ps.0, c.stranger.0, k.source.0)
        || overcounted(c.high, c.low, k.length)
        || odd(c, masters)
}

// Whether a lent row and data area are not the queue's: refusal 21.
pub fn unlent(q: Queue, row: &[u8], area: &[u8]) -> bool
    ensures { result ≡ refusals_unlent q (record { row = row.now; area = area.now }) }
{
    queue::misfit(q, request::SIZE, row.len(), area.len())
}

// Whether the output is too short or an update too long: refusal 22.
pub fn cramped(out: usize, high: usize, low: usize) -> bool
    ensures { result ≡ refusals_cramped out high low }
{
    out < 255 || UPDATE < high || UPDATE < low
}

fn unlike(phase: Phase, service: u8) -> bool
    ensures { result ≡ unlike_in phase service }
{
    match phase {
        Phase::Awaited => service == request::SDN,
        Phase::Sdn => service != request::SDN,
        Phase::Idle | Phase::Check | Phase::ToSelf => false,
    }
}

// The record being sent, or the one that would be.
pub fn in_flight(c: Core, high: &[u8], low: &[u8]) -> Record
    requires { (Lawful c)
        × ((length high.now ≡ SIZE * c.high.places) × (length low.now ≡ SIZE * c.low.places)) }
    ensures { result ≡ in_flight c high.now low.now }
{
    match c.doing.served {
        Priority::High => rows::at(high, queue::current(c.high)),
        Priority::Low => rows::at(low, queue::current(c.low)),
    }
}

// The same of the rows lent as one.
pub fn served(c: Core, rows: SharedRows) -> Record
    requires { (Lawful c)
        × ((length rows.high.now ≡ SIZE * c.high.places) × (length rows.low.now ≡ SIZE * c.low.places)) }
    ensures { result ≡ in_flight c rows.entry.high.now rows.entry.low.now }
{
    in_flight(c, rows.high, rows.low)
}

// Whether an unconfirmed record is one that submit would refuse, or the record being sent is not the phase's: refusal
// 29, by the records.
fn unsound(c: Core, rows: SharedRows) -> bool
    requires { (Lawful c)
        × ((length rows.high.now ≡ SIZE * c.high.places) × (length rows.low.now ≡ SIZE * c.low.places)) }
    ensures { result ≡ refusals_unsound c rows.entry.high.now rows.entry.low.now }
{
    unlike(c.doing.phase, served(c, rows).service)
        || !rows::sound(c.ts, c.high, rows.high)
        || !rows::sound(c.ts, c.low, rows.low)
}

// The refusal of frame, sent and slot, with an output and two updates of those lengths.
pub fn refusal(
    out: usize,
    first: usize,
    second: usize,
    c: Core,
    masters: &[u8; 127],
    started: &[u8; 127],
    k: Kept,
    rows: SharedRows,
) -> Result<(), Refusal>
    ensures { refused result
        ≡ refusal_in out first second c masters.now started.now k (high_of rows.entry) (low_of rows.entry) }
{
    if unlent(c.high, rows.high, rows.high_area) || unlent(c.low, rows.low, rows.low_area) {
        return Err(Refusal::Row);
    }
    if cramped(out, first, second) {
        return Err(Refusal::Room);
    }
    if lawless(c, masters, started, k) || unsound(c, rows) {
        return Err(Refusal::State);
    }
    Ok(())
}
