// The station's seven calls on a state by value: start, submit, collect, frame, sent, slot and reset. Each takes any
// state, rows, buffers and octets, and answers. Here are frame, sent and slot; the others are handed on. Assumes
// nothing.
#![tactic(auto)]

ghost use Rattle.std.specs.Prelude.{◌≡◌, length};
ghost use Rattle.state.specs.World.{world_of};
ghost use Rattle.state.specs.Calls.{frame as calls_frame, sent as calls_sent, slot as calls_slot};
ghost use Rattle.state.specs.Told.{SameRows, answered_by, high_in, leaves, low_in, told};

use answering::Caller;
use clock::BitTime;
use refusal::Refusal;
use state::{Answer, Heard, Memory, Rows, State};
pub use station_queues::{collect, submit};
pub use station_start::{reset, start};

// The answer of a call to which the arrays of a state were lent.
fn answer(state: State, h: Heard) -> Answer
    ensures { result
        ≡ record {
          state =
              record {
                core = h.core;
                masters = state.masters;
                started = state.started;
                marks = state.marks;
                points = state.points;
                memory = record { kept = h.kept; octets = state.memory.octets };
              };
          length = h.length;
          wait = h.wait;
          indication = h.indication;
        } }
{
    Answer {
        state: State {
            core: h.core,
            memory: Memory {
                kept: h.kept,
                ..state.memory
            },
            ..state
        },
        length: h.length,
        wait: h.wait,
        indication: h.indication,
    }
}

// A frame, with what the caller gives to an answer.
pub fn frame(
    s: State,
    clock: BitTime,
    caller: Caller,
    octets: &[u8],
    rows: &mut Rows,
    out: &mut [u8],
) -> Result<Answer, Refusal>
    ensures told { leaves (answered_by s result) (high_in rows.new) (low_in rows.new) out.new
        ≡ told
        (calls_frame clock.0 caller.entry.room caller.entry.high.now caller.entry.low.now octets.now (length out.old)
        (world_of s (high_in rows.old) (low_in rows.old))) out.old }
    ensures same { SameRows rows.old rows.new }
{
    let mut state = s;
    let h = station_lent::frame(
        clock,
        caller,
        octets,
        s.core,
        s.memory.kept,
        &mut state.masters.0,
        &state.started.0,
        &mut state.marks.0,
        &state.points.0,
        &mut state.memory.octets,
        rows,
        out,
    )?;
    Ok(answer(state, h))
}

// What was to be sent went out.
pub fn sent(s: State, clock: BitTime, rows: &mut Rows, out: &mut [u8]) -> Result<Answer, Refusal>
    ensures told { leaves (answered_by s result) (high_in rows.new) (low_in rows.new) out.new
        ≡ told
        (calls_sent clock.0 (length out.old) (world_of s (high_in rows.old) (low_in rows.old))) out.old }
    ensures same { SameRows rows.old rows.new }
{
    let mut state = s;
    let h = station_lent::sent(
        clock,
        s.core,
        s.memory.kept,
        &state.masters.0,
        &state.started.0,
        &mut state.marks.0,
        rows,
        out,
    )?;
    Ok(answer(state, h))
}

// Slot expired.
pub fn slot(s: State, clock: BitTime, rows: &mut Rows, out: &mut [u8]) -> Result<Answer, Refusal>
    ensures told { leaves (answered_by s result) (high_in rows.new) (low_in rows.new) out.new
        ≡ told
        (calls_slot clock.0 (length out.old) (world_of s (high_in rows.old) (low_in rows.old))) out.old }
    ensures same { SameRows rows.old rows.new }
{
    let mut state = s;
    let h = station_lent::slot(
        clock,
        s.core,
        s.memory.kept,
        &mut state.masters.0,
        &state.started.0,
        &mut state.marks.0,
        rows,
        out,
    )?;
    Ok(answer(state, h))
}
