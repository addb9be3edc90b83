// How a token is taken in Idle, and how a pass is checked: the acts that change the set of masters. Assumes nothing.
#![tactic(auto)]

ghost use Rattle.std.specs.Prelude.{◌≡◌, ◌<◌, ◌≤◌, length, [], ◌∷◌};
ghost use Rattle.state.specs.World.{with_doing, a_token, sends};
ghost use Rattle.state.specs.Request.{once, wait_for};
ghost use Rattle.state.specs.Pass.{token_to, ps_without};
ghost use Rattle.state.specs.Hold.{token as hold_token};
ghost use Rattle.state.specs.Refusals.{Lawful, Sited};
ghost use Rattle.state.specs.Told.{Sends, Does, Rechecks, high_of, low_of, site_of_shared};

use clock::BitTime;
use frame::Address;
use serve::exchange;
use state::{Core, Moved, SharedRows};
use times::Sending;

// Nothing is sent.
pub fn quiet(c: Core) -> Moved
    ensures { result ≡ record { core = c; length = 0; wait = record { 0 = 0 } } }
{
    Moved {
        core: c,
        length: 0,
        wait: BitTime(0),
    }
}

// A token in Idle, to an address from another.
// Kept: addresses are compared by their numbers; with the derived `==` the proof of this function did not close.
#[tactic(auto, unfolding(choice::specs::Choice::pick, choice::specs::Choice::same, state::specs::Hold::token, state::specs::Hold::admit, state::specs::World::still, state::specs::World::with_core, state::specs::World::with_masters, state::specs::World::with_ps, state::specs::World::with_stranger, state::specs::Told::telling, state::specs::Told::untold, laid::specs::Laid::laid))]
pub fn token(
    clock: BitTime,
    d: Address,
    a: Address,
    c: Core,
    masters: &mut [u8; 127],
    marks: &[u8; 127],
    rows: SharedRows,
    out: &mut [u8],
) -> Moved
    requires { (Sited c (high_of rows) (low_of rows)) × (255 ≤ length out.old) }
    ensures { Does
        (hold_token clock.0 d.0 a.0 (site_of_shared c masters.old marks.now rows.entry)) out.old result masters.new
        marks.now (high_of rows.entry) (low_of rows.entry) out.new }
{
    if d.0 != c.ts.0 || a.0 == c.ts.0 {
        quiet(c)
    } else if a.0 == c.ps.0 {
        serve::begin(clock, c, masters, marks, rows, out)
    } else if a.0 == c.stranger.0 {
        ring::enter(masters, a);
        let core = acts::with_ps(a, c);
        serve::begin(clock, core, masters, marks, rows, out)
    } else {
        quiet(acts::with_stranger(a, c))
    }
}

// Sends the token to NS once more.
#[tactic(auto, unfolding(state::specs::Pass::token_to, state::specs::Told::telling, state::specs::Told::adds))]
fn pass_again(ns: Address, c: Core, out: &mut [u8]) -> Moved
    requires { (Lawful c) × ((ns.0 < 127) × ((c.doing.sendings < 255) × (255 ≤ length out.old))) }
    ensures { Sends (with_doing (once c.doing) c)
        (sends a_token (token_to ns.0 c) (wait_for c Sending.Other) ∷ []) out.old result out.new }
{
    let length = exchange::lay_token(ns, c.ts, out);
    let wait = acts::wait_for(c, Sending::Other);
    Moved {
        core: acts::with_doing(acts::once(c.doing), c),
        length,
        wait,
    }
}

// PS when a station has left the set.
#[tactic(auto, unfolding(choice::specs::Choice::pick, choice::specs::Choice::same, state::specs::Pass::ps_without))]
fn ps_without(n: Address, masters: &[u8; 127], c: Core) -> Address
    requires { c.ts.0 < 127 }
    ensures { result.0 ≡ ps_without n.0 masters.now c }
{
    if n.0 == c.ps.0 {
        ring::previous(masters, c.ts)
    } else {
        c.ps
    }
}

// Slot expiry while the pass is checked.
#[tactic(auto, unfolding(choice::specs::Choice::pick, choice::specs::Choice::less, state::specs::Pass::recheck, state::specs::Pass::pass_again, state::specs::Pass::pass, state::specs::Pass::without, state::specs::Pass::ns, state::specs::World::with_core, state::specs::World::with_masters, state::specs::World::with_ps, state::specs::World::done))]
pub fn recheck(c: Core, masters: &mut [u8; 127], out: &mut [u8]) -> Moved
    requires { (Lawful c) × (255 ≤ length out.old) }
    ensures { Rechecks c masters.old out.old result masters.new out.new }
{
    let ns = serve::next(c, masters);
    if c.doing.sendings < 3 {
        return pass_again(ns, c, out);
    }
    ring::remove(masters, ns);
    let core = acts::with_ps(ps_without(ns, masters, c), c);
    serve::pass_to(serve::next(core, masters), core, out)
}
