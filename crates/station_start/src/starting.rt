// The station's call start, and the state that start and reset give. Assumes nothing.
ghost use Rattle.std.specs.Prelude.{◌≡◌, ◌<◌, ◌≤◌};
ghost use Rattle.queue.specs.Queue.{PLACES};
ghost use Rattle.state.specs.World.{state_of};
ghost use Rattle.state.specs.Calls.{no_rows, empty_queue, fresh_core, fresh_world, start as calls_start};
ghost use Rattle.state.specs.Told.{blank, renewed_by, started_of};

use clock::BitTime;
use frame::Address;
use queue::Queue;
use refusal::Refusal;
use ring::Masters;
use state::{Core, Doing, Hold, Kept, Marks, Memory, Phase, Points, Priority, State};
use times::Settings;

// The core of a station that nothing has happened to.
#[tactic(auto, unfolding(state::specs::Calls::fresh_core, state::specs::Calls::first_hold))]
fn fresh_core(settings: Settings, ts: Address, masters: &[u8; 127], high: Queue, low: Queue) -> Core
    requires { ts.0 < 127 }
    ensures { result ≡ fresh_core settings ts.0 masters.now high low }
{
    Core {
        settings,
        ts,
        ps: ring::previous(masters, ts),
        stranger: Address(state::NOBODY),
        doing: Doing {
            phase: Phase::Idle,
            served: Priority::High,
            sendings: 0,
            sdn: false,
        },
        hold: Hold {
            acceptance: BitTime(0),
            before: BitTime(0),
            begun: 0,
        },
        high,
        low,
    }
}

// The state of a station that starts afresh, with what its memory's octets are.
#[tactic(auto, unfolding(state::specs::Calls::fresh_world, state::specs::Calls::forgotten, state::specs::World::state_of))]
pub fn fresh(
    settings: Settings,
    ts: Address,
    masters: Masters,
    points: Points,
    high: Queue,
    low: Queue,
    octets: [u8; 255],
) -> State
    requires { ts.0 < 127 }
    ensures { result
        ≡ state_of
        (fresh_world (fresh_core settings ts.0 masters.0 high low) masters.0 points.0 octets no_rows
        no_rows) }
{
    State {
        core: fresh_core(settings, ts, &masters.0, high, low),
        masters,
        started: masters,
        marks: Marks([2; 127]),
        points,
        memory: Memory {
            kept: Kept {
                source: Address(state::NOBODY),
                bit: false,
                length: 0,
            },
            octets,
        },
    }
}

// An empty queue of so many places.
#[tactic(auto, unfolding(state::specs::Calls::empty_queue))]
fn empty(places: usize) -> Queue
    requires { places ≤ PLACES }
    ensures { result ≡ empty_queue places }
{
    Queue {
        places: places as u8,
        first: 0,
        confirmed: 0,
        unconfirmed: 0,
    }
}

// Starts a station with queues of so many places.
#[tactic(auto, using(crate::proofs::starting::Started::start_facts), unfolding(choice::specs::Choice::pick, choice::specs::Choice::less, choice::specs::Choice::same, choice::specs::Choice::said, refusal::specs::Refusal::number, state::specs::Calls::start, state::specs::Told::renewed_by, state::specs::Told::started_of))]
pub fn start(
    settings: Settings,
    ts: Address,
    masters: Masters,
    points: Points,
    high: usize,
    low: usize,
) -> Result<State, Refusal>
    ensures { renewed_by blank result ≡ started_of (calls_start settings ts.0 masters.0 points.0 high low) }
{
    if refusals::unstartable(settings, ts, &masters.0) {
        return Err(Refusal::Setting);
    }
    if !matches!(high, 1..=queue::PLACES) || !matches!(low, 1..=queue::PLACES) {
        return Err(Refusal::Row);
    }
    Ok(fresh(
        settings,
        ts,
        masters,
        points,
        empty(high),
        empty(low),
        [0; 255],
    ))
}
