// The station's calls frame, sent and slot expired, where the arrays of its state are lent: each takes any core,
// arrays, rows, buffers and octets, and answers. Assumes nothing.
#![tactic(auto)]

ghost use Rattle.std.specs.Prelude.{◌≡◌, length};
ghost use Rattle.state.specs.Calls.{frame as calls_frame, sent as calls_sent, slot as calls_slot};
ghost use Rattle.refusal.specs.Refusal.{refused};
ghost use Rattle.state.specs.Refusals.{refusal_in};
ghost use Rattle.state.specs.Told.{heard_by, stands, standing, world_in, high_in, low_in, high_of, low_of, SameRows};
ghost use Rattle.station_lent.specs.Acts.{Acts};

use answering::Caller;
use clock::BitTime;
use refusal::Refusal;
use state::{Core, Heard, Kept, Rows, SharedRows};

// A frame, with what the caller gives to an answer.
#[tactic(auto, using(crate::proofs::Steps::frame_steps), unfolding(refusal::specs::Refusal::refused))]
pub fn frame(
    clock: BitTime,
    caller: Caller,
    s: &[u8],
    c: Core,
    k: Kept,
    masters: &mut [u8; 127],
    started: &[u8; 127],
    marks: &mut [u8; 127],
    points: &[u8; 64],
    octets: &mut [u8; 255],
    rows: &mut Rows,
    out: &mut [u8],
) -> Result<Heard, Refusal>
    ensures stands { stands (heard_by c k result) masters.new started.now marks.new points.now
        octets.new (high_in rows.new) (low_in rows.new) out.new
        ≡ standing
        (calls_frame clock.0 caller.entry.room caller.entry.high.now caller.entry.low.now s.now (length out.old)
        (world_in c k masters.old started.now marks.old points.now
        octets.old (high_in rows.old) (low_in rows.old))) out.old }
    ensures same { SameRows rows.old rows.new }
{
    refusals::refusal(
        out.len(),
        caller.high.len(),
        caller.low.len(),
        c,
        masters,
        started,
        k,
        rows.shared(),
    )?;
    Ok(hearing::hear(
        clock, caller, s, c, k, masters, marks, points, octets, rows, out,
    ))
}

// The refusal of sent and slot, which are given no updates.
fn refusal(
    out: usize,
    c: Core,
    masters: &[u8; 127],
    started: &[u8; 127],
    k: Kept,
    rows: SharedRows,
) -> Result<(), Refusal>
    ensures { refused result
        ≡ refusal_in out 0 0 c masters.now started.now k (high_of rows.entry) (low_of rows.entry) }
{
    refusals::refusal(out, 0, 0, c, masters, started, k, rows)
}

// What was to be sent went out.
pub fn sent(
    clock: BitTime,
    c: Core,
    k: Kept,
    masters: &[u8; 127],
    started: &[u8; 127],
    marks: &mut [u8; 127],
    rows: &mut Rows,
    out: &mut [u8],
) -> Result<Heard, Refusal>
    ensures acts { Acts (calls_sent clock.0 (length out.old)) c k masters.now started.now marks.old
        (high_in rows.old) (low_in rows.old) out.old (heard_by c k result) masters.now marks.new
        (high_in rows.new) (low_in rows.new) out.new }
    ensures same { SameRows rows.old rows.new }
{
    refusal(out.len(), c, masters, started, k, rows.shared())?;
    let m = phases::sent_in(clock, c, masters, marks, rows, out);
    Ok(hearing::idle::moved(m, k))
}

// Slot expired.
pub fn slot(
    clock: BitTime,
    c: Core,
    k: Kept,
    masters: &mut [u8; 127],
    started: &[u8; 127],
    marks: &mut [u8; 127],
    rows: &mut Rows,
    out: &mut [u8],
) -> Result<Heard, Refusal>
    ensures acts { Acts (calls_slot clock.0 (length out.old)) c k masters.old started.now marks.old
        (high_in rows.old) (low_in rows.old) out.old (heard_by c k result) masters.new marks.new
        (high_in rows.new) (low_in rows.new) out.new }
    ensures same { SameRows rows.old rows.new }
{
    refusal(out.len(), c, masters, started, k, rows.shared())?;
    let m = phases::slot_in(clock, c, masters, marks, rows, out);
    Ok(hearing::idle::moved(m, k))
}
