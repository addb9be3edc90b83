// Frame, sent and slot expired as replay plays them: the call on the station, and its line. Assumes nothing.
#![tactic(auto)]

ghost use Rattle.std.specs.Prelude.{◌≡◌, ◌≤◌, length, []};
ghost use Rattle.state.specs.World.{world_of};
ghost use Rattle.state.specs.Calls.{frame as calls_frame, sent as calls_sent, slot as calls_slot};
ghost use Rattle.state.specs.Told.{leaves, high_in, low_in, SameRows};
ghost use Rattle.printed_lines.specs.Saying.{played, answer_of};

use answering::Caller;
use clock::BitTime;
use printed_lines::saying;
use printed_lines::saying::Played;
use state::{Rows, State};

// What a frame is given with: the clock, whether there is room for an indication, the two updates, and its octets.
#[derive(Clone, Copy)]
pub struct Given<'a> {
    pub clock: BitTime,
    pub room: bool,
    pub first: &'a [u8],
    pub second: &'a [u8],
    pub octets: &'a [u8],
}

// A frame, with the room for an indication and the two updates.
pub fn frame(s: State, given: Given, rows: &mut Rows, text: &mut [u8]) -> Played
    requires { (length given.octets.now ≤ 2048) × (8192 ≤ length text.old) }
    ensures played { leaves result (high_in rows.new) (low_in rows.new) text.new
        ≡ played (answer_of given.entry.octets.now)
        (calls_frame given.entry.clock.0 given.entry.room given.entry.first.now given.entry.second.now
        given.entry.octets.now 255
        (world_of s (high_in rows.old) (low_in rows.old))) text.old }
    ensures same { SameRows rows.old rows.new }
{
    let mut out = [0u8; 255];
    let caller = Caller {
        room: given.room,
        high: given.first,
        low: given.second,
    };
    let a = station::frame(s, given.clock, caller, given.octets, rows, &mut out);
    saying::told(s, a, &out, given.octets, text)
}

// What was to be sent went out.
// Kept: `sent` and `slot` apart. A function of what they share would take all that `saying::told` takes.
pub fn sent(s: State, clock: BitTime, r: &mut Rows, text: &mut [u8]) -> Played
    requires { 8192 ≤ length text.old }
    ensures played { leaves result (high_in r.new) (low_in r.new) text.new
        ≡ played (answer_of [])
        (calls_sent clock.0 255 (world_of s (high_in r.old) (low_in r.old))) text.old }
    ensures same { SameRows r.old r.new }
{
    let mut out = [0u8; 255];
    let a = station::sent(s, clock, r, &mut out);
    saying::told(s, a, &out, b"", text)
}

// Slot expired.
pub fn slot(s: State, clock: BitTime, r: &mut Rows, text: &mut [u8]) -> Played
    requires { 8192 ≤ length text.old }
    ensures played { leaves result (high_in r.new) (low_in r.new) text.new
        ≡ played (answer_of [])
        (calls_slot clock.0 255 (world_of s (high_in r.old) (low_in r.old))) text.old }
    ensures same { SameRows r.old r.new }
{
    let mut out = [0u8; 255];
    let a = station::slot(s, clock, r, &mut out);
    saying::told(s, a, &out, b"", text)
}
