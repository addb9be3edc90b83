// The station's calls frame, sent and slot for a caller that holds the station as numbers and lends its arrays. Assumes
// nothing.
// Kept: the arrays are parameters of their own, because the C interface lends other ones to be written in each call.
ghost use Rattle.std.specs.Prelude.{◌≡◌, length};
ghost use Rattle.state.specs.Calls.{frame as calls_frame, sent as calls_sent, slot as calls_slot};
ghost use Rattle.state.specs.Told.{SameRows, high_in, low_in, standing, world_in};
ghost use Rattle.c_core.specs.Numbers.{core_in, kept_in};
ghost use Rattle.c_core.specs.Handover.{room_of, held, holding};

use answering::Caller;
use c_core::handover;
use c_core::handover::FlatAnswer;
use c_core::numbers::Numbers;
use clock::BitTime;
use state::{Core, Kept, Rows};

// A string of octets was heard, with the room for an indication and the two updates.
pub fn hear(
    n: Numbers,
    masters: &mut [u8; 127],
    started: &[u8; 127],
    marks: &mut [u8; 127],
    points: &[u8; 64],
    memory: &mut [u8; 255],
    clock: u32,
    room: u8,
    first: &[u8],
    second: &[u8],
    octets: &[u8],
    rows: &mut Rows,
    out: &mut [u8],
) -> FlatAnswer
    ensures held { held result masters.new started.now marks.new points.now
        memory.new (high_in rows.new) (low_in rows.new) out.new
        ≡ holding n
        (standing
        (calls_frame clock (room_of room) first.now second.now octets.now
        (length out.old)
        (world_in (core_in n) (kept_in n) masters.old started.now marks.old
        points.now memory.old (high_in rows.old) (low_in rows.old))) out.old) }
    ensures same { SameRows rows.old rows.new }
{
    let caller = Caller {
        room: handover::room_of(room),
        high: first,
        low: second,
    };
    let a = station_lent::frame(
        BitTime(clock),
        caller,
        octets,
        Core::from(n),
        Kept::from(n),
        masters,
        started,
        marks,
        points,
        memory,
        rows,
        out,
    );
    handover::answer(n, a)
}

// What the station gave to be sent has gone out.
pub fn sent(
    n: Numbers,
    masters: &[u8; 127],
    started: &[u8; 127],
    marks: &mut [u8; 127],
    points: &[u8; 64],
    memory: &[u8; 255],
    clock: u32,
    rows: &mut Rows,
    out: &mut [u8],
) -> FlatAnswer
    ensures held { held result masters.now started.now marks.new points.now
        memory.now (high_in rows.new) (low_in rows.new) out.new
        ≡ holding n
        (standing
        (calls_sent clock (length out.old)
        (world_in (core_in n) (kept_in n) masters.now started.now marks.old
        points.now memory.now (high_in rows.old) (low_in rows.old))) out.old) }
    ensures same { SameRows rows.old rows.new }
{
    let a = station_lent::sent(
        BitTime(clock),
        Core::from(n),
        Kept::from(n),
        masters,
        started,
        marks,
        rows,
        out,
    );
    handover::answer(n, a)
}

// The slot time expired.
pub fn slot(
    n: Numbers,
    masters: &mut [u8; 127],
    started: &[u8; 127],
    marks: &mut [u8; 127],
    points: &[u8; 64],
    memory: &[u8; 255],
    clock: u32,
    rows: &mut Rows,
    out: &mut [u8],
) -> FlatAnswer
    ensures held { held result masters.new started.now marks.new points.now
        memory.now (high_in rows.new) (low_in rows.new) out.new
        ≡ holding n
        (standing
        (calls_slot clock (length out.old)
        (world_in (core_in n) (kept_in n) masters.old started.now marks.old
        points.now memory.now (high_in rows.old) (low_in rows.old))) out.old) }
    ensures same { SameRows rows.old rows.new }
{
    let a = station_lent::slot(
        BitTime(clock),
        Core::from(n),
        Kept::from(n),
        masters,
        started,
        marks,
        rows,
        out,
    );
    handover::answer(n, a)
}
