// Submit, collect, reset and show as replay plays them: the call on the station, and its line. Assumes nothing.
#![tactic(auto)]

ghost use Rattle.std.specs.Prelude.{◌≡◌, ◌≤◌, length};
ghost use Rattle.laid.specs.Laid.{Lays};
ghost use Rattle.printed.specs.Printed.{shown_line};
ghost use Rattle.state.specs.World.{rows, world_of};
ghost use Rattle.state.specs.Calls.{submit as calls_submit, collect as calls_collect, reset as calls_reset};
ghost use Rattle.state.specs.Told.{leaves, lent, high_in, low_in, high_of, low_of, SameRows, accepted_by, handed_back_by};
ghost use Rattle.printed_lines.specs.Saying.{played, plain_of, handed_of, plain_line, handed_line};
ghost use Rattle.play_queues.specs.Booked.{booked, booked_of};

use printed::phrases;
use printed_lines::saying::Played;
use printed_lines::{saying, shown};
use refusal::Refusal;
use request::Record;
use state::{Accepted, HandedBack, Priority, Rows, SharedRows, State};

// Lays the line of what submit answered in a state.
#[tactic(auto, unfolding(state::specs::Told::accepted_by, state::specs::Told::renewed_by))]
fn submitted(s: State, a: Result<Accepted, Refusal>, text: &mut [u8]) -> Played
    requires { 8192 ≤ length text.old }
    ensures state_value { result.state ≡ (accepted_by s a).state }
    ensures lays { Lays text.old 0 (plain_line (accepted_by s a).refused) 8192 result.length text.new }
{
    match a {
        Ok(a) => saying::plain(s, Ok(a.state), text),
        Err(r) => saying::plain(s, Err(r), text),
    }
}

// A request with its data, to a queue whose row and data area are lent.
fn submit_to(
    s: State,
    p: Priority,
    r: Record,
    x: &[u8],
    row: &mut [u8],
    area: &mut [u8],
    text: &mut [u8],
) -> Played
    requires { 8192 ≤ length text.old }
    ensures { booked result (rows row.new area.new) text.new
        ≡ booked_of p plain_of
        (calls_submit p r x.now (lent p s (rows row.old area.old)))
        text.old }
{
    let a = station::submit(s, p, r, x, row, area);
    submitted(s, a, text)
}

// Submits a request with its data.
pub fn submit(
    s: State,
    p: Priority,
    r: Record,
    x: &[u8],
    rows: &mut Rows,
    text: &mut [u8],
) -> Played
    requires { 8192 ≤ length text.old }
    ensures played { leaves result (high_in rows.new) (low_in rows.new) text.new
        ≡ played plain_of
        (calls_submit p r x.now (world_of s (high_in rows.old) (low_in rows.old))) text.old }
    ensures same { SameRows rows.old rows.new }
{
    match p {
        Priority::High => submit_to(s, Priority::High, r, x, rows.high, rows.high_area, text),
        Priority::Low => submit_to(s, Priority::Low, r, x, rows.low, rows.low_area, text),
    }
}

// Lays the line of what collect answered in a state.
#[tactic(auto, using(printed::proofs::phrases::Steps::laying), unfolding(choice::specs::Choice::pick, choice::specs::Choice::same, state::specs::Told::handed_back_by, printed_lines::specs::Saying::handed_line))]
fn handed(s: State, a: Result<HandedBack, Refusal>, area: &[u8], text: &mut [u8]) -> Played
    requires { 8192 ≤ length text.old }
    ensures state_value { result.state ≡ (handed_back_by s a).state }
    ensures lays { Lays text.old 0
        (handed_line (handed_back_by s a).refused (handed_back_by s a).place (handed_back_by s a).entry area.now) 8192
        result.length text.new }
{
    match a {
        Ok(a) => Played {
            state: a.state,
            length: shown::collected(a.place, a.entry, area, text, 0),
        },
        Err(r) => Played {
            state: s,
            length: phrases::refused(r.number(), text, 0),
        },
    }
}

// Collects from a queue whose row and data area are lent.
fn collect_from(s: State, p: Priority, row: &[u8], area: &[u8], text: &mut [u8]) -> Played
    requires { 8192 ≤ length text.old }
    ensures { booked result (rows row.now area.now) text.new
        ≡ booked_of p (handed_of p) (calls_collect p (lent p s (rows row.now area.now)))
        text.old }
{
    let a = station::collect(s, p, row, area);
    handed(s, a, area, text)
}

// Collects the oldest confirmed record of a queue.
pub fn collect(s: State, p: Priority, rows: SharedRows, text: &mut [u8]) -> Played
    requires { 8192 ≤ length text.old }
    ensures { leaves result (high_of rows.entry) (low_of rows.entry) text.new
        ≡ played (handed_of p)
        (calls_collect p (world_of s (high_of rows.entry) (low_of rows.entry))) text.old }
{
    match p {
        Priority::High => collect_from(s, Priority::High, rows.high, rows.high_area, text),
        Priority::Low => collect_from(s, Priority::Low, rows.low, rows.low_area, text),
    }
}

// Resets the station.
pub fn reset(s: State, rows: &mut Rows, text: &mut [u8]) -> Played
    requires { 8192 ≤ length text.old }
    ensures played { leaves result (high_in rows.new) (low_in rows.new) text.new
        ≡ played plain_of
        (calls_reset (world_of s (high_in rows.old) (low_in rows.old))) text.old }
    ensures same { SameRows rows.old rows.new }
{
    let a = station::reset(s, rows);
    saying::plain(s, a, text)
}

// Shows the station.
pub fn show(s: State, text: &mut [u8]) -> usize
    requires { 8192 ≤ length text.old }
    ensures { Lays text.old 0 (shown_line s.core s.masters.0) 8192 result text.new }
{
    shown::shown(s.core, &s.masters.0, text, 0)
}
