// The decisions of a hold as functions of values: the time that is left, the choice of what is sent, and what each act
// makes of the core. Nothing here touches a row or an output. Assumes nothing.
#![tactic(auto, unfolding(choice::specs::Choice::pick, choice::specs::Choice::less, choice::specs::Choice::same, choice::specs::Choice::said, state::specs::World::with_doing, state::specs::World::with_hold, state::specs::World::with_stranger, state::specs::World::with_ps, state::specs::World::with_queue, state::specs::World::queue_of, state::specs::Request::after_last, state::specs::Request::wait_for, state::specs::Request::sending, state::specs::Request::once, state::specs::Request::status_of, state::specs::Pass::passing, state::specs::Hold::left, state::specs::Hold::choice, state::specs::Hold::accepting, state::specs::Hold::resting, state::specs::Hold::beginning))]

ghost use Rattle.std.specs.Prelude.{◌≡◌, ◌<◌};
ghost use Rattle.times.specs.Times.{Small};
ghost use Rattle.state.specs.World.{with_doing, with_stranger, with_ps, with_queue, queue_of};
ghost use Rattle.state.specs.Request.{after_last, wait_for, sending as request_sending, once as request_once, status_of};
ghost use Rattle.state.specs.Pass.{passing as pass_passing};
ghost use Rattle.state.specs.Hold.{left as hold_left, choice as hold_choice, accepting as hold_accepting};
ghost use Rattle.state.specs.Hold.{resting as hold_resting, beginning as hold_beginning};

use clock::BitTime;
use frame::Address;
use queue::Queue;
use state::{Choice, Core, Doing, Hold, Outcome, Phase, Priority};
use times::Sending;

// The core with one part changed.
pub fn with_doing(d: Doing, c: Core) -> Core
    ensures { result ≡ with_doing d c }
{
    Core { doing: d, ..c }
}

pub fn with_stranger(a: Address, c: Core) -> Core
    ensures { result ≡ with_stranger a c }
{
    Core { stranger: a, ..c }
}

pub fn with_ps(a: Address, c: Core) -> Core
    ensures { result ≡ with_ps a c }
{
    Core { ps: a, ..c }
}

pub fn with_queue(p: Priority, q: Queue, c: Core) -> Core
    ensures { result ≡ with_queue p q c }
{
    match p {
        Priority::High => Core { high: q, ..c },
        Priority::Low => Core { low: q, ..c },
    }
}

// A queue of the core.
pub fn queue_of(p: Priority, c: Core) -> Queue
    ensures { result ≡ queue_of p c }
{
    match p {
        Priority::High => c.high,
        Priority::Low => c.low,
    }
}

// Whether time is left in this hold.
fn left(c: Core, clock: BitTime) -> bool
    ensures { result ≡ hold_left c clock.0 }
{
    1 < c.hold.begun && clock::time_left(clock, c.hold.before, c.settings.ttr)
}

// What a hold goes on with, at its start or later.
// Kept: whether the hold starts is a truth value, as in the definition `choice`.
pub fn choice(starts: bool, c: Core, clock: BitTime) -> Choice
    ensures { result ≡ hold_choice starts c clock.0 }
{
    let time = left(c, clock);
    if 0 < c.high.unconfirmed && (starts || time) {
        Choice::Serve(Priority::High)
    } else if 0 < c.low.unconfirmed && time {
        Choice::Serve(Priority::Low)
    } else {
        Choice::PassOn
    }
}

fn accepting(clock: BitTime, h: Hold) -> Hold
    ensures { result ≡ hold_accepting clock.0 h }
{
    Hold {
        acceptance: clock,
        before: h.acceptance,
        begun: h.begun.min(1) + 1,
    }
}

// Nothing is being sent.
pub fn resting(d: Doing) -> Doing
    ensures { result ≡ hold_resting d }
{
    Doing {
        phase: Phase::Idle,
        sendings: 0,
        sdn: false,
        ..d
    }
}

// The core at the beginning of a hold.
pub fn beginning(clock: BitTime, c: Core) -> Core
    ensures { result ≡ hold_beginning clock.0 c }
{
    Core {
        stranger: Address(state::NOBODY),
        doing: resting(c.doing),
        hold: accepting(clock, c.hold),
        ..c
    }
}

// A request of a service goes out for the first time.
pub fn sending(p: Priority, service: u8) -> Doing
    ensures { result ≡ request_sending p service }
{
    let sdn = service == request::SDN;
    Doing {
        phase: if sdn { Phase::Sdn } else { Phase::Awaited },
        served: p,
        sendings: 1,
        sdn,
    }
}

// What is being sent goes out once more.
pub fn once(d: Doing) -> Doing
    requires { d.sendings < 255 }
    ensures { result ≡ request_once d }
{
    Doing {
        sendings: d.sendings + 1,
        ..d
    }
}

// The token goes to NS.
pub fn passing(ns: Address, c: Core) -> Doing
    ensures { result ≡ pass_passing ns.0 c }
{
    let own = ns == c.ts;
    Doing {
        phase: if own { Phase::ToSelf } else { Phase::Check },
        sendings: 1,
        sdn: false,
        ..c.doing
    }
}

fn after_last(c: Core) -> Sending
    ensures { result ≡ after_last c }
{
    if c.doing.sdn {
        Sending::AfterSdn
    } else {
        Sending::Other
    }
}

// The wait of a sending, and of one that follows this hold's last.
pub fn wait_for(c: Core, s: Sending) -> BitTime
    requires { Small c.settings }
    ensures { result.0 ≡ wait_for c s }
{
    times::wait(c.settings, s)
}

pub fn wait_after(c: Core) -> BitTime
    requires { Small c.settings }
    ensures { result.0 ≡ wait_for c (after_last c) }
{
    wait_for(c, after_last(c))
}

// The status of a request's end.
pub fn status_of(o: Outcome) -> u8
    ensures { result ≡ status_of o }
{
    match o {
        Outcome::Replied(status) => status,
        Outcome::Lost => request::NA,
        Outcome::Gone => 0,
    }
}
