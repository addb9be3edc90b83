// What replay holds, and what each line does to it: the whole of the replay script's page but for reading the lines and
// writing the answers. Assumes nothing.
#![tactic(auto)]

ghost use Rattle.std.specs.Prelude.{◌≡◌, ◌≤◌, length, replicate};
ghost use Rattle.laid.specs.Laid.{laid};
ghost use Rattle.typed.specs.Places.{LONGEST as places_longest};
ghost use Rattle.typed_call.specs.Operands.{high_of, low_of};
ghost use Rattle.play.specs.Play.{start_by, played_by};
ghost use Rattle.state.specs.Told.{SameRows, leaves};
ghost use Rattle.state.specs.World.{rows};
ghost use Rattle.printed_lines.specs.Saying.{printing};
ghost use Rattle.desk.specs.Desk.{Few, starts as desk_starts, starting, answer_other, answer_by, answer as desk_answer};
ghost use Rattle.desk.specs.Lent.{ArraysIn, AnswersIn, desk_in};

use printed_lines::saying;
use printed_lines::saying::Played;
use state::{Rows, State};
use typed::places::LONGEST;
use typed_call::script::Call;
use typed_call::{operands, script};

const COMMENT: u8 = b'#';

// What is held beside the arrays of the rows: how many places each row has, and the state since the last accepted
// start, None before the first.
#[derive(Drop)]
pub struct Held {
    pub high: usize,
    pub low: usize,
    pub state: Option<State>,
}

// What a line leaves, and the length of what it prints.
#[derive(Drop)]
pub struct Said {
    pub held: Held,
    pub length: usize,
}

// Fills the first n octets of an array with zeros.
#[tactic(auto, unfolding(laid::specs::Laid::laid))]
fn clear(a: &mut [u8], n: usize)
    requires { n ≤ length a.old }
    ensures { a.new ≡ laid a.old 0 (replicate n 0) }
{
    a[..n].fill(0);
}

// Starts a station; an accepted start clears the rows.
#[tactic(auto, using(crate::proofs::Holding::few_rows))]
fn begin(h: Held, line: &[u8], rows: &mut Rows, text: &mut [u8]) -> Said
    requires { (ArraysIn rows.old text.old) × (Few h) }
    ensures answers { AnswersIn
        (starting (start_by line.now) (high_of line.now) (low_of line.now) (desk_in h rows.old))
        rows.old text.old result rows.new text.new }
    ensures arrays { ArraysIn rows.new text.new }
    ensures same { SameRows rows.old rows.new }
{
    let r = play::start(line);
    let length = saying::outcome(r, text);
    let Ok(state) = r else {
        return Said { held: h, length };
    };
    let upper = operands::high(line);
    let lower = operands::low(line);
    clear(rows.high, request::SIZE * upper);
    clear(rows.high_area, queue::AREA * upper);
    clear(rows.low, request::SIZE * lower);
    clear(rows.low_area, queue::AREA * lower);
    Said {
        held: Held {
            high: upper,
            low: lower,
            state: Some(state),
        },
        length,
    }
}

// Plays a call on the places in use.
// Kept: eight parameters. In `go_on` the parts of the lent arrays made into a `Rows` there are not covered by the
// borrow checker, neither from the fields, nor from variables of them, nor from a pattern.
fn play_on(
    call: Call,
    s: State,
    line: &[u8],
    high: &mut [u8],
    high_area: &mut [u8],
    low: &mut [u8],
    low_area: &mut [u8],
    text: &mut [u8],
) -> Played
    requires { (length line.now ≤ places_longest) × (8192 ≤ length text.old) }
    ensures { leaves result (rows high.new high_area.new) (rows low.new low_area.new) text.new
        ≡ printing (played_by call line.now s (rows high.old high_area.old) (rows low.old low_area.old)) text.old }
{
    let mut lent = Rows {
        high,
        high_area,
        low,
        low_area,
    };
    play::play(call, s, line, &mut lent, text)
}

// Plays a call that is no start.
fn go_on(h: Held, call: Call, line: &[u8], rows: &mut Rows, text: &mut [u8]) -> Said
    requires { (ArraysIn rows.old text.old) × (Few h) × (length line.now ≤ places_longest) }
    ensures answers { AnswersIn (answer_other call line.now (desk_in h rows.old))
        rows.old text.old result rows.new text.new }
    ensures arrays { ArraysIn rows.new text.new }
    ensures same { SameRows rows.old rows.new }
{
    let Some(state) = h.state else {
        return Said {
            held: h,
            length: saying::unknown(text),
        };
    };
    let high = &mut *rows.high;
    let high_area = &mut *rows.high_area;
    let low = &mut *rows.low;
    let low_area = &mut *rows.low_area;
    let p = play_on(
        call,
        state,
        line,
        &mut high[..request::SIZE * h.high],
        &mut high_area[..queue::AREA * h.high],
        &mut low[..request::SIZE * h.low],
        &mut low_area[..queue::AREA * h.low],
        text,
    );
    Said {
        held: Held {
            state: Some(p.state),
            ..h
        },
        length: p.length,
    }
}

// Whether a call is a start.
#[tactic(auto, unfolding(crate::specs::Desk::starts))]
fn starts(call: Call) -> bool
    ensures { result ≡ desk_starts call }
{
    matches!(call, Call::Start)
}

// Answers a line by the call that it is.
fn answer_by(h: Held, call: Call, line: &[u8], rows: &mut Rows, text: &mut [u8]) -> Said
    requires { (ArraysIn rows.old text.old) × (Few h) × (length line.now ≤ places_longest) }
    ensures answers { AnswersIn (answer_by call line.now (desk_in h rows.old))
        rows.old text.old result rows.new text.new }
    ensures arrays { ArraysIn rows.new text.new }
    ensures same { SameRows rows.old rows.new }
{
    if starts(call) {
        begin(h, line, rows, text)
    } else {
        go_on(h, call, line, rows, text)
    }
}

// Answers a line: what it prints stands at the start of the text.
pub fn answer(h: Held, line: &[u8], rows: &mut Rows, text: &mut [u8]) -> Said
    requires { (ArraysIn rows.old text.old) × (Few h) }
    ensures answers { AnswersIn (desk_answer line.now (desk_in h rows.old))
        rows.old text.old result rows.new text.new }
    ensures arrays { ArraysIn rows.new text.new }
    ensures same { SameRows rows.old rows.new }
{
    if line.is_empty() || line[0] == COMMENT {
        return Said { held: h, length: 0 };
    }
    if LONGEST < line.len() {
        return Said {
            held: h,
            length: saying::unknown(text),
        };
    }
    answer_by(h, script::call_of(line), line, rows, text)
}
