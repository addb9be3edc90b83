// A call of the replay script, played on a station that was started: what the words of its line give the call, the
// call, and its line. Assumes nothing.
#![tactic(auto)]

ghost use Rattle.std.specs.Prelude.{◌≡◌, ◌≤◌, length};
ghost use Rattle.state.specs.World.{world_of};
ghost use Rattle.state.specs.Runs.{call as runs_call};
ghost use Rattle.state.specs.Told.{leaves, started_of, high_in, low_in, SameRows, renewed_by, blank};
ghost use Rattle.typed.specs.Places.{LONGEST};
ghost use Rattle.typed_call.specs.Operands.{heard_of};
ghost use Rattle.printed_lines.specs.Saying.{plain_of, answer_of, played, printing};
ghost use Rattle.play.specs.Play.{start_by, submit_by, frame_by, played_by};

use play_turns::Given;
use printed_lines::saying;
use printed_lines::saying::Played;
use refusal::Refusal;
use state::{Rows, State};
use typed_call::script::Call;
use typed_call::{operands, table};

// Starts a station.
pub fn start(line: &[u8]) -> Result<State, Refusal>
    ensures { renewed_by blank result ≡ started_of (start_by line.now) }
{
    station::start(
        operands::settings(line),
        operands::ts(line),
        operands::masters(line),
        operands::points(line),
        operands::high(line),
        operands::low(line),
    )
}

// Submits a request.
fn submit(s: State, line: &[u8], rows: &mut Rows, text: &mut [u8]) -> Played
    requires { (length line.now ≤ LONGEST) × (8192 ≤ length text.old) }
    ensures played { leaves result (high_in rows.new) (low_in rows.new) text.new
        ≡ played plain_of
        (runs_call (submit_by line.now) (world_of s (high_in rows.old) (low_in rows.old))) text.old }
    ensures same { SameRows rows.old rows.new }
{
    let mut data = [0u8; 2048];
    let n = operands::octets(line, table::DATA, &mut data);
    let p = operands::queue(line);
    let r = operands::request(line);
    play_queues::submit(s, p, r, &data[..n], rows, text)
}

// Gives a frame.
fn frame(s: State, line: &[u8], rows: &mut Rows, text: &mut [u8]) -> Played
    requires { (length line.now ≤ LONGEST) × (8192 ≤ length text.old) }
    ensures played { leaves result (high_in rows.new) (low_in rows.new) text.new
        ≡ played (answer_of (heard_of line.now))
        (runs_call (frame_by line.now) (world_of s (high_in rows.old) (low_in rows.old))) text.old }
    ensures same { SameRows rows.old rows.new }
{
    let mut first = [0u8; 2048];
    let mut second = [0u8; 2048];
    let mut octets = [0u8; 2048];
    let n = operands::octets(line, table::HIGH, &mut first);
    let m = operands::octets(line, table::LOW, &mut second);
    let k = operands::octets(line, table::OCTETS, &mut octets);
    let given = Given {
        clock: operands::clock(line),
        room: operands::room(line),
        first: &first[..n],
        second: &second[..m],
        octets: &octets[..k],
    };
    play_turns::frame(s, given, rows, text)
}

// Plays a call on a station that was started. A start is played elsewhere: here it is no call.
pub fn play(call: Call, s: State, line: &[u8], rows: &mut Rows, text: &mut [u8]) -> Played
    requires { (length line.now ≤ LONGEST) × (8192 ≤ length text.old) }
    ensures played { leaves result (high_in rows.new) (low_in rows.new) text.new
        ≡ printing (played_by call line.now s (high_in rows.old) (low_in rows.old)) text.old }
    ensures same { SameRows rows.old rows.new }
{
    match call {
        Call::Unknown | Call::Start => Played {
            state: s,
            length: saying::unknown(text),
        },
        Call::Submit => submit(s, line, rows, text),
        Call::Frame => frame(s, line, rows, text),
        Call::Sent => play_turns::sent(s, operands::clock(line), rows, text),
        Call::Slot => play_turns::slot(s, operands::clock(line), rows, text),
        Call::Reset => play_queues::reset(s, rows, text),
        Call::Collect => play_queues::collect(s, operands::queue(line), rows.shared(), text),
        Call::Show => Played {
            state: s,
            length: play_queues::show(s, text),
        },
    }
}
