// The C boundary: the reader, the writer, the lister and the station for programs in C. Numbers go in and structs of
// numbers come out; every number is taken, and out-of-rule ones are refused. Assumes nothing.
// Kept: calls of the high and of the low queue are twins, and arrays stand apart, because the C interface has them so.
#![tactic(auto)]

ghost use Rattle.std.specs.Prelude.{◌≡◌, [], length};
ghost use Rattle.frame.specs.Reading.{read as reading_read};
ghost use Rattle.frame.specs.Format.{written, left};
ghost use Rattle.times.specs.Times.{standard};
ghost use Rattle.state.specs.World.{rows, world_of};
ghost use Rattle.state.specs.Calls.{start as calls_start, reset as calls_reset, submit as calls_submit};
ghost use Rattle.state.specs.Calls.{collect as calls_collect, frame as calls_frame, sent as calls_sent};
ghost use Rattle.state.specs.Calls.{slot as calls_slot};
ghost use Rattle.state.specs.Told.{lent, world_in, started_of, reset_of, standing};
ghost use Rattle.c_core.specs.Numbers.{settings_in, settings_of, core_in, kept_in};
ghost use Rattle.c_core.specs.Handover.{state_in, request_from, room_of, holding, filled, starting, held, resetting};
ghost use Rattle.c_core.specs.Handover.{lodged, submitting, collecting};
ghost use Rattle.capture.specs.Listing.{listed, left as listing_left};
ghost use Rattle.c_frames.specs.Flat.{token_from, flat as flat_flat, flat_written, writes, leaves};

use c_calls::{queues, turns};
use c_core::handover;
use c_core::handover::{FlatAccepted, FlatAnswer, FlatCollected, FlatRenewed};
use c_core::numbers::{FlatSettings, Numbers};
use c_frames::{FlatFrame, FlatWritten};
use frame::{Address, Fields};
use refusal::Refusal;
use state::{Priority, Rows};

// Reads a frame.
#[unsafe(no_mangle)]
pub extern "C" fn cihlomet_read(octets: &[u8]) -> FlatFrame
    ensures { result ≡ flat_flat (reading_read octets.now) }
{
    c_frames::reading(octets)
}

// Writes a frame with a control octet.
#[unsafe(no_mangle)]
pub extern "C" fn cihlomet_write(
    destination: u8,
    to: u8,
    source: u8,
    from: u8,
    control: u8,
    data: &[u8],
    out: &mut [u8],
) -> FlatWritten
    ensures value { result ≡ writes destination to source from control «data».now out.old }
    ensures out_after { out.new
        ≡ leaves destination to source from control «data».now out.old }
{
    c_frames::writing(destination, to, source, from, control, data, out)
}

// Writes a token.
#[tactic(auto, unfolding(frame::specs::Format::wrote, c_frames::specs::Flat::counted))]
#[unsafe(no_mangle)]
pub extern "C" fn cihlomet_token(destination: u8, source: u8, out: &mut [u8]) -> FlatWritten
    ensures value { result ≡ flat_written (written (token_from destination source) [] out.old) }
    ensures out_after { out.new ≡ left (token_from destination source) [] out.old }
{
    let w = write::write_token(Address(destination), Address(source), out);
    c_frames::written(w.map_err(Refusal::number))
}

// Writes a short acknowledgement.
#[tactic(auto, unfolding(frame::specs::Format::wrote, c_frames::specs::Flat::counted))]
#[unsafe(no_mangle)]
pub extern "C" fn cihlomet_short(out: &mut [u8]) -> FlatWritten
    ensures value { result ≡ flat_written (written Fields.Short [] out.old) }
    ensures out_after { out.new ≡ left Fields.Short [] out.old }
{
    c_frames::written(write::write_short(out).map_err(Refusal::number))
}

// Lists a capture. The least output is 139274 octets: to a shorter one the answer is 0.
#[unsafe(no_mangle)]
pub extern "C" fn cihlomet_list(capture: &[u8], out: &mut [u8]) -> usize
    ensures value { result ≡ listed capture.now out.old }
    ensures out_after { out.new ≡ listing_left capture.now out.old }
{
    capture::list(capture, out)
}

// The standard settings. They have no retries: who wants some says so.
#[unsafe(no_mangle)]
pub extern "C" fn cihlomet_standard() -> FlatSettings
    ensures { result ≡ settings_of standard }
{
    FlatSettings::from(times::standard())
}

// Starts a station with a set of masters, active access points and rows of so many places.
#[unsafe(no_mangle)]
pub extern "C" fn cihlomet_start(
    settings: FlatSettings,
    ts: u8,
    masters: &[u8; 127],
    started: &mut [u8; 127],
    marks: &mut [u8; 127],
    points: &[u8; 64],
    memory: &mut [u8; 255],
    high: usize,
    low: usize,
) -> FlatRenewed
    ensures { filled result masters.now started.new marks.new points.now
        memory.new
        ≡ starting
        (started_of (calls_start (settings_in settings) ts masters.now points.now high low))
        masters.now started.old marks.old points.now
        memory.old }
{
    queues::start(
        settings, ts, masters, started, marks, points, memory, high, low,
    )
}

// Resets a station: confirms all unconfirmed requests DS, and begins afresh as it was started.
#[unsafe(no_mangle)]
pub extern "C" fn cihlomet_reset(
    n: Numbers,
    masters: &mut [u8; 127],
    started: &[u8; 127],
    marks: &mut [u8; 127],
    points: &[u8; 64],
    memory: &[u8; 255],
    high: &mut [u8],
    harea: &mut [u8],
    low: &mut [u8],
    larea: &mut [u8],
) -> FlatRenewed
    ensures { held result masters.new started.now marks.new points.now
        memory.now (rows high.new harea.new)
        (rows low.new larea.new) []
        ≡ resetting n
        (reset_of
        (calls_reset
        (world_of
        (state_in n masters.old started.now marks.old
        points.now memory.now)
        (rows high.old harea.old)
        (rows low.old larea.old)))) }
{
    let mut rows = Rows {
        high,
        high_area: harea,
        low,
        low_area: larea,
    };
    queues::reset(n, masters, started, marks, points, memory, &mut rows)
}

// Submits a request to the high queue.
#[unsafe(no_mangle)]
pub extern "C" fn cihlomet_submit_high(
    n: Numbers,
    masters: &[u8; 127],
    started: &[u8; 127],
    marks: &[u8; 127],
    points: &[u8; 64],
    memory: &[u8; 255],
    service: u8,
    destination: u8,
    to: u8,
    from: u8,
    reference: u32,
    limit: u8,
    asks: u8,
    data: &[u8],
    row: &mut [u8],
    area: &mut [u8],
) -> FlatAccepted
    ensures { lodged result masters.now started.now marks.now points.now
        memory.now row.new area.new
        ≡ submitting n Priority.High
        (calls_submit Priority.High (request_from service destination to from reference limit asks)
        «data».now
        (lent Priority.High
        (state_in n masters.now started.now marks.now points.now
        memory.now) (rows row.old area.old))) }
{
    let r = handover::request_from(service, destination, to, from, reference, limit, asks);
    queues::submit(
        Priority::High,
        n,
        masters,
        started,
        marks,
        points,
        memory,
        r,
        data,
        row,
        area,
    )
}

// Submits a request to the low queue.
#[unsafe(no_mangle)]
pub extern "C" fn cihlomet_submit_low(
    n: Numbers,
    masters: &[u8; 127],
    started: &[u8; 127],
    marks: &[u8; 127],
    points: &[u8; 64],
    memory: &[u8; 255],
    service: u8,
    destination: u8,
    to: u8,
    from: u8,
    reference: u32,
    limit: u8,
    asks: u8,
    data: &[u8],
    row: &mut [u8],
    area: &mut [u8],
) -> FlatAccepted
    ensures { lodged result masters.now started.now marks.now points.now
        memory.now row.new area.new
        ≡ submitting n Priority.Low
        (calls_submit Priority.Low (request_from service destination to from reference limit asks)
        «data».now
        (lent Priority.Low
        (state_in n masters.now started.now marks.now points.now
        memory.now) (rows row.old area.old))) }
{
    let r = handover::request_from(service, destination, to, from, reference, limit, asks);
    queues::submit(
        Priority::Low,
        n,
        masters,
        started,
        marks,
        points,
        memory,
        r,
        data,
        row,
        area,
    )
}

// Hands back the oldest confirmed record of the high queue and frees its place.
#[unsafe(no_mangle)]
pub extern "C" fn cihlomet_collect_high(
    n: Numbers,
    masters: &[u8; 127],
    started: &[u8; 127],
    marks: &[u8; 127],
    points: &[u8; 64],
    memory: &[u8; 255],
    row: &[u8],
    area: &[u8],
) -> FlatCollected
    ensures { lodged result masters.now started.now marks.now points.now
        memory.now row.now area.now
        ≡ collecting n Priority.High
        (calls_collect Priority.High
        (lent Priority.High
        (state_in n masters.now started.now marks.now points.now
        memory.now) (rows row.now area.now))) }
{
    queues::collect(
        Priority::High,
        n,
        masters,
        started,
        marks,
        points,
        memory,
        row,
        area,
    )
}

// Hands back the oldest confirmed record of the low queue and frees its place.
#[unsafe(no_mangle)]
pub extern "C" fn cihlomet_collect_low(
    n: Numbers,
    masters: &[u8; 127],
    started: &[u8; 127],
    marks: &[u8; 127],
    points: &[u8; 64],
    memory: &[u8; 255],
    row: &[u8],
    area: &[u8],
) -> FlatCollected
    ensures { lodged result masters.now started.now marks.now points.now
        memory.now row.now area.now
        ≡ collecting n Priority.Low
        (calls_collect Priority.Low
        (lent Priority.Low
        (state_in n masters.now started.now marks.now points.now
        memory.now) (rows row.now area.now))) }
{
    queues::collect(
        Priority::Low,
        n,
        masters,
        started,
        marks,
        points,
        memory,
        row,
        area,
    )
}

// A string of octets was heard, with the room for an indication and the two updates.
#[unsafe(no_mangle)]
pub extern "C" fn cihlomet_hear(
    n: Numbers,
    masters: &mut [u8; 127],
    started: &[u8; 127],
    marks: &mut [u8; 127],
    points: &[u8; 64],
    memory: &mut [u8; 255],
    clock: u32,
    room: u8,
    first: &[u8],
    second: &[u8],
    octets: &[u8],
    high: &mut [u8],
    harea: &mut [u8],
    low: &mut [u8],
    larea: &mut [u8],
    out: &mut [u8],
) -> FlatAnswer
    ensures { held result masters.new started.now marks.new points.now
        memory.new (rows high.new harea.new)
        (rows low.new larea.new) out.new
        ≡ holding n
        (standing
        (calls_frame clock (room_of room) first.now second.now octets.now
        (length out.old)
        (world_in (core_in n) (kept_in n) masters.old started.now marks.old
        points.now memory.old (rows high.old harea.old)
        (rows low.old larea.old))) out.old) }
{
    let mut rows = Rows {
        high,
        high_area: harea,
        low,
        low_area: larea,
    };
    turns::hear(
        n, masters, started, marks, points, memory, clock, room, first, second, octets, &mut rows,
        out,
    )
}

// What the station gave to be sent has gone out.
#[unsafe(no_mangle)]
pub extern "C" fn cihlomet_sent(
    n: Numbers,
    masters: &[u8; 127],
    started: &[u8; 127],
    marks: &mut [u8; 127],
    points: &[u8; 64],
    memory: &[u8; 255],
    clock: u32,
    high: &mut [u8],
    harea: &mut [u8],
    low: &mut [u8],
    larea: &mut [u8],
    out: &mut [u8],
) -> FlatAnswer
    ensures { held result masters.now started.now marks.new points.now
        memory.now (rows high.new harea.new)
        (rows low.new larea.new) out.new
        ≡ holding n
        (standing
        (calls_sent clock (length out.old)
        (world_in (core_in n) (kept_in n) masters.now started.now marks.old
        points.now memory.now (rows high.old harea.old)
        (rows low.old larea.old))) out.old) }
{
    let mut rows = Rows {
        high,
        high_area: harea,
        low,
        low_area: larea,
    };
    turns::sent(
        n, masters, started, marks, points, memory, clock, &mut rows, out,
    )
}

// The slot time expired.
#[unsafe(no_mangle)]
pub extern "C" fn cihlomet_slot(
    n: Numbers,
    masters: &mut [u8; 127],
    started: &[u8; 127],
    marks: &mut [u8; 127],
    points: &[u8; 64],
    memory: &[u8; 255],
    clock: u32,
    high: &mut [u8],
    harea: &mut [u8],
    low: &mut [u8],
    larea: &mut [u8],
    out: &mut [u8],
) -> FlatAnswer
    ensures { held result masters.new started.now marks.new points.now
        memory.now (rows high.new harea.new)
        (rows low.new larea.new) out.new
        ≡ holding n
        (standing
        (calls_slot clock (length out.old)
        (world_in (core_in n) (kept_in n) masters.old started.now marks.old
        points.now memory.now (rows high.old harea.old)
        (rows low.old larea.old))) out.old) }
{
    let mut rows = Rows {
        high,
        high_area: harea,
        low,
        low_area: larea,
    };
    turns::slot(
        n, masters, started, marks, points, memory, clock, &mut rows, out,
    )
}
