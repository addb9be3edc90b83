// Replay: reads a replay script on standard input to its end, a block at a time, and answers each line as soon as it
// is whole. What a line does and prints is `desk::answer`, which lines there are is `typed_lines::gather`; here they
// are called in turn, in memory that does not grow with the script. What is written is what the script's lines print.
#![tactic(auto)]

ghost use Rattle.std.specs.Prelude.{◌≡◌, ◌<◌, None, length, IfOk, IfSome, OnOk};
ghost use Rattle.std.specs.Io.KnownBytes.{Appends};
ghost use Rattle.desk.specs.Desk.{Few};
ghost use Rattle.desk.specs.Lent.{ArraysIn};
ghost use Rattle.state.specs.Told.{SameRows};
ghost use Rattle.typed_lines.specs.Intake.{ROOM};
ghost use Rattle.replay.specs.Lent.{ReadyIn, stand_in};
ghost use Rattle.replay.specs.Script.{READS, answers, heeded, heeded_line, behind, written};

use desk::Held;
use state::Rows;
use std::io;
use std::io::{Read, Write};

// A row of as many places as a queue may have, and its data area.
const ROW: usize = request::SIZE * queue::PLACES;

const AREA: usize = queue::AREA * queue::PLACES;

// What is held between blocks: what replay holds, and how many octets of the line at hand are kept.
#[derive(Drop)]
struct Pending {
    held: Held,
    count: usize,
}

// Before the first start.
fn unbegun() -> Held
    ensures { (Few result) × (result.state ≡ None) }
{
    Held {
        high: 0,
        low: 0,
        state: None,
    }
}

// Answers the line at hand if it is whole.
fn heed<W: Write>(
    output: &mut W,
    whole: bool,
    p: Pending,
    line: &mut [u8],
    rows: &mut Rows,
    text: &mut [u8],
) -> io::Result<Pending>
    requires { ReadyIn p line.old rows.old text.old }
    ensures ready { IfOk result (λ q. ReadyIn q line.new rows.new text.new) }
    ensures stand { IfOk result (λ q. stand_in q line.new rows.new ≡ heeded whole (stand_in p line.old rows.old)) }
    ensures bytes { OnOk result (Appends (W.contents output.old) (W.contents output.new)
        (heeded_line whole (stand_in p line.old rows.old))) }
    ensures same { SameRows rows.old rows.new }
{
    if !whole {
        return Ok(p);
    }
    let s = desk::answer(p.held, &line[..p.count], rows, text);
    output.write_all(&text[..s.length])?;
    Ok(Pending {
        held: s.held,
        count: 0,
    })
}

// Answers each line that a block makes whole.
fn take_in<W: Write>(
    output: &mut W,
    block: &[u8],
    p: Pending,
    line: &mut [u8],
    rows: &mut Rows,
    text: &mut [u8],
) -> io::Result<Pending>
    requires { ReadyIn p line.old rows.old text.old }
    ensures ready { IfOk result (λ q. ReadyIn q line.new rows.new text.new) }
    ensures stand { IfOk result (λ q. stand_in q line.new rows.new ≡ behind block.now (stand_in p line.old rows.old)) }
    ensures bytes { OnOk result (Appends (W.contents output.old) (W.contents output.new)
        (written block.now (stand_in p line.old rows.old))) }
    ensures same { SameRows rows.old rows.new }
{
    let mut held = p.held;
    let mut count = p.count;
    let mut at = 0;
    // Kept: `while`. A turn's next place is what `gather` gives, so no range and no iterator has the places.
    while at < block.len() {
        let g = typed_lines::gather(block, at, line, count);
        at = g.next;
        let pending = Pending {
            held,
            count: g.count,
        };
        let p = heed(output, g.whole, pending, line, rows, text)?;
        held = p.held;
        count = p.count;
    }
    Ok(Pending { held, count })
}

// Answers the lines of the input, the last one too if it has no line end.
fn serve<R: Read, W: Write>(
    input: &mut R,
    output: &mut W,
    block: &mut [u8],
    line: &mut [u8],
    rows: &mut Rows,
    text: &mut [u8],
) -> io::Result<()>
    requires { (length line.old ≡ ROOM) × (ArraysIn rows.old text.old) }
    ensures { OnOk result (0 < length block.old → IfSome (R.remaining input.old) (λ script. length script < READS
        → Appends (W.contents output.old) (W.contents output.new) (answers script))) }
{
    let mut held = unbegun();
    let mut count = 0;
    for _turn in 0..u64::MAX {
        let n = input.read(block)?;
        let pending = Pending { held, count };
        if n == 0 {
            heed(output, true, pending, line, rows, text)?;
            return Ok(());
        }
        let p = take_in(output, &block[..n], pending, line, rows, text)?;
        held = p.held;
        count = p.count;
    }
    Ok(())
}

// Reads a script to its end, and writes what its lines print.
fn play_script<R: Read, W: Write>(input: &mut R, output: &mut W) -> io::Result<()>
    ensures { OnOk result (IfSome (R.remaining input.old) (λ script. length script < READS
        → Appends (W.contents output.old) (W.contents output.new) (answers script))) }
{
    let mut block = [0u8; 4096];
    let mut line = [0u8; 4097];
    let mut high = [0u8; ROW];
    let mut high_area = [0u8; AREA];
    let mut low = [0u8; ROW];
    let mut low_area = [0u8; AREA];
    let mut text = [0u8; 8192];
    let mut rows = Rows {
        high: &mut high,
        high_area: &mut high_area,
        low: &mut low,
        low_area: &mut low_area,
    };
    serve(input, output, &mut block, &mut line, &mut rows, &mut text)
}

fn main(rt: HostRuntime) -> io::Result<()> {
    play_script(&mut rt.stdin(), &mut rt.stdout())
}
