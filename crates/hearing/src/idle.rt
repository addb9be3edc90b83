// What a frame does in Idle: a token is taken, a request is answered, and anything else is ignored. Assumes nothing.
ghost use Rattle.std.specs.Prelude.{◌≡◌, Ok, None};
ghost use Rattle.frame.specs.Reading.{read as reading_read};
ghost use Rattle.times.specs.Times.{Small};
ghost use Rattle.state.specs.Calls.{responder as calls_responder, idle as calls_idle, idle_read};
ghost use Rattle.state.specs.Told.{heard_by, high_of, low_of};
ghost use Rattle.hearing.specs.Hears.{Hears, Listening, Sound};

use answering::Caller;
use clock::BitTime;
use control::Kind;
use frame::{Fields, Part};
use state::{Core, Heard, Indication, Kept, Moved, Responder, SharedRows, Spoken};
use times::Sending;

// What an act on the site leaves, as what was heard.
pub fn moved(m: Moved, kept: Kept) -> Heard
    ensures { result
        ≡ record { core = m.core; kept = kept; length = m.length; wait = m.wait; indication = None } }
{
    Heard {
        core: m.core,
        kept,
        length: m.length,
        wait: m.wait,
        indication: None,
    }
}

// What is answered to a request, as what was heard.
fn spoken(core: Core, s: Spoken) -> Heard
    ensures { result
        ≡ record { core = core; kept = s.kept; length = s.length; wait = s.wait; indication = s.indication } }
{
    Heard {
        core,
        kept: s.kept,
        length: s.length,
        wait: s.wait,
        indication: s.indication,
    }
}

// What this master answers as: TS, a station in the ring, after min TSDR.
#[tactic(auto, unfolding(state::specs::Calls::responder))]
fn responder(c: Core) -> Responder
    requires { Small c.settings }
    ensures { result ≡ calls_responder c }
{
    Responder {
        ts: c.ts,
        kind: Kind::InRing,
        wait: acts::wait_for(c, Sending::Reply),
    }
}

// A good frame in Idle.
#[tactic(auto, unfolding(state::specs::Calls::idle, state::specs::Calls::nothing, state::specs::Told::standing, state::specs::Told::heard_of, state::specs::Told::heard_by, state::specs::Told::telling, state::specs::Told::untold, laid::specs::Laid::laid))]
fn idle(
    clock: BitTime,
    caller: Caller,
    f: Fields,
    p: Part,
    c: Core,
    k: Kept,
    masters: &mut [u8; 127],
    marks: &[u8; 127],
    points: &[u8; 64],
    octets: &mut [u8; 255],
    rows: SharedRows,
    out: &mut [u8],
) -> Heard
    requires { (Sound f)
        × (Listening c k (high_of rows) (low_of rows) caller.high.now caller.low.now out.old) }
    ensures { Hears
        (calls_idle clock.0 caller.entry.room caller.entry.high.now caller.entry.low.now f p) c k
        masters.old marks.now points.now octets.old (high_of rows.entry) (low_of rows.entry) out.old
        (heard_by c k (Ok result)) masters.new marks.now octets.new (high_of rows.entry) (low_of rows.entry) out.new }
{
    match f {
        Fields::Token {
            destination,
            source,
        } => {
            let m = tokens::token(clock, destination, source, c, masters, marks, rows, out);
            moved(m, k)
        }
        Fields::Short => moved(tokens::quiet(c), k),
        Fields::Frame(h) => {
            let r = responder(c);
            let request = Indication { head: h, part: p };
            let s = answering::answer(r, points, k, octets, caller, request, out);
            spoken(c, s)
        }
    }
}

// A frame in Idle.
#[tactic(auto, unfolding(state::specs::Calls::idle_read, frame::specs::Reading::answered, state::specs::Calls::nothing, state::specs::Told::standing, state::specs::Told::heard_of, state::specs::Told::heard_by, state::specs::Told::telling, state::specs::Told::untold, laid::specs::Laid::laid))]
pub fn idle_read(
    clock: BitTime,
    caller: Caller,
    s: &[u8],
    c: Core,
    k: Kept,
    masters: &mut [u8; 127],
    marks: &[u8; 127],
    points: &[u8; 64],
    octets: &mut [u8; 255],
    rows: SharedRows,
    out: &mut [u8],
) -> Heard
    requires { Listening c k (high_of rows) (low_of rows) caller.high.now caller.low.now out.old }
    ensures { Hears
        (idle_read clock.0 caller.entry.room caller.entry.high.now caller.entry.low.now (reading_read s.now)) c k
        masters.old marks.now points.now octets.old (high_of rows.entry) (low_of rows.entry) out.old
        (heard_by c k (Ok result)) masters.new marks.now octets.new (high_of rows.entry) (low_of rows.entry) out.new }
{
    let Ok((f, p)) = read::read(s) else {
        return moved(tokens::quiet(c), k);
    };
    idle(
        clock, caller, f, p, c, k, masters, marks, points, octets, rows, out,
    )
}
