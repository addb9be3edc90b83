// The line that replay prints for a call, by what its caller is told. The station is left to the crates above. Assumes
// nothing.
// Kept: `write!` promises its text only where it gives `Ok`, and no contract of `fmt::Write` says when that is; the
// lines are always laid, octet for octet (plain_line, answer_line), into fixed memory.
#![tactic(auto, using(printed::proofs::phrases::Steps::laying))]

ghost use Rattle.std.specs.Prelude.{◌≤◌, length, ◌≡◌};
ghost use Rattle.frame.specs.Reading.{part};
ghost use Rattle.laid.specs.Laid.{Lays};
ghost use Rattle.refusal.specs.Refusal.{refused};
ghost use Rattle.state.specs.Told.{answered_by, renewed_by};
ghost use Rattle.printed_lines.specs.Saying.{unknown_line, plain_line, answer_line};

use printed::phrases;
use refusal::Refusal;
use state::{Answer, State};

// What a call leaves: the state, and the length of its line.
#[derive(Drop)]
pub struct Played {
    pub state: State,
    pub length: usize,
}

// Lays the line of what is no call.
pub fn unknown(text: &mut [u8]) -> usize
    requires { 8192 ≤ length text.old }
    ensures { Lays text.old 0 unknown_line 8192 result text.new }
{
    laid::lay(b"?\n", text, 0)
}

// Lays the line of start, submit and reset by number, 0 where the call was not refused.
#[tactic(auto, using(printed::proofs::phrases::Steps::laying), unfolding(choice::specs::Choice::pick, choice::specs::Choice::same, crate::specs::Saying::plain_line))]
pub fn numbered(refused: u8, text: &mut [u8]) -> usize
    requires { 8192 ≤ length text.old }
    ensures { Lays text.old 0 (plain_line refused) 8192 result text.new }
{
    match refused {
        0 => laid::lay(b"ok\n", text, 0),
        n => phrases::refused(n, text, 0),
    }
}

// Lays the line of what start, submit or reset answered: whether it was refused.
#[tactic(auto, unfolding(refusal::specs::Refusal::refused))]
pub fn outcome<A: Drop>(a: Result<A, Refusal>, text: &mut [u8]) -> usize
    requires { 8192 ≤ length text.old }
    ensures { Lays text.old 0 (plain_line (refused a)) 8192 result text.new }
{
    match a {
        Ok(_) => numbered(0, text),
        Err(r) => numbered(r.number(), text),
    }
}

// Lays that line for the state that a call was made in, where a refused call leaves that state.
#[tactic(auto, unfolding(refusal::specs::Refusal::refused, state::specs::Told::renewed_by))]
pub fn plain(s: State, a: Result<State, Refusal>, text: &mut [u8]) -> Played
    requires { 8192 ≤ length text.old }
    ensures state_value { result.state ≡ (renewed_by s a).state }
    ensures lays { Lays text.old 0 (plain_line (renewed_by s a).refused) 8192 result.length text.new }
{
    Played {
        state: a.unwrap_or(s),
        length: outcome(a, text),
    }
}

// Lays the line of what frame, sent or slot answered in a state; what is to be sent stands at the start of the output.
#[tactic(auto, using(printed::proofs::phrases::Steps::laying), unfolding(choice::specs::Choice::pick, choice::specs::Choice::same, state::specs::Told::answered_by, crate::specs::Saying::answer_line))]
pub fn told(
    s: State,
    a: Result<Answer, Refusal>,
    out: &[u8],
    octets: &[u8],
    text: &mut [u8],
) -> Played
    requires { (length out.now ≤ 255) × (length octets.now ≤ 2048) × (8192 ≤ length text.old) }
    ensures state_value { result.state ≡ (answered_by s a).state }
    ensures lays { Lays text.old 0
        (answer_line (answered_by s a).refused (answered_by s a).wait.0 (part out.now 0 (answered_by s a).length)
        (answered_by s a).indication octets.now) 8192 result.length text.new }
{
    match a {
        Ok(a) => {
            let sent = read::part(out, 0, a.length);
            Played {
                state: a.state,
                length: phrases::done(a.wait.0, sent, a.indication, octets, text, 0),
            }
        }
        Err(refusal) => Played {
            state: s,
            length: phrases::refused(refusal.number(), text, 0),
        },
    }
}
