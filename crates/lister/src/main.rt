// The lister: reads a capture on standard input to its end and writes its listing. All that matters is `capture::list`.
// Octets past the longest capture only make it long (`listing-kept` in the proofs of capture), so the buffer holds one
// more than that and the rest is let go.
#![tactic(auto)]

ghost use Rattle.std.specs.Prelude.{◌≡◌, ◌<◌, ◌≤◌, length, take, IfOk, IfSome, OnOk};
ghost use Rattle.std.specs.Io.KnownBytes.{Appends, Consumes, IsAtEnd};
ghost use Rattle.capture.specs.Listing.{LONGEST as listing_longest, ROOM as listing_room, listing};

use capture::{LONGEST, ROOM};
use std::io;
use std::io::{Read, Write};

// The buffers: as much of a capture as its listing takes note of, and room for any listing.
// Kept: functions of their own, as the proof of `list` ran out of stack with `[0; LONGEST]` in its body.
fn longest() -> [u8; LONGEST]
    ensures { length result ≡ listing_longest }
{
    [0; LONGEST]
}

fn room() -> [u8; ROOM]
    ensures { length result ≡ listing_room }
{
    [0; ROOM]
}

// Reads till a buffer is full or the input ends, and gives how many octets of the buffer were read.
fn read_full<R: Read>(input: &mut R, octets: &mut [u8]) -> io::Result<usize>
    ensures within { IfOk result (λ n. n ≤ length octets.new) }
    ensures bytes { IfOk result (λ n. Consumes (R.remaining input.old) (R.remaining input.new) (take n octets.new)) }
    ensures end { IfOk result (λ n. n < length octets.new → IsAtEnd (R.remaining input.new)) }
{
    let mut done = 0;
    // Kept: `while`. A read may give fewer octets than asked, so the next place comes from what was read.
    while done < octets.len() {
        let n = input.read(&mut octets[done..])?;
        if n == 0 {
            return Ok(done);
        }
        done += n;
    }
    Ok(done)
}

// Reads on by way of a spare buffer, till the input ends.
fn read_on<R: Read>(input: &mut R, spare: &mut [u8]) -> io::Result<()> {
    for _ in 0..u64::MAX {
        if input.read(spare)? == 0 {
            break;
        }
    }
    Ok(())
}

// Lets the rest of the input go.
fn let_go<R: Read>(input: &mut R) -> io::Result<()> {
    let mut spare = [0u8; 4096];
    read_on(input, &mut spare)
}

// Reads a capture to its end, and writes its listing.
pub fn list<R: Read, W: Write>(input: &mut R, output: &mut W) -> io::Result<()>
    ensures { OnOk result (IfSome (R.remaining input.old) (λ capture.
        Appends (W.contents output.old) (W.contents output.new) (listing capture))) }
{
    let mut octets = longest();
    let mut out = room();
    let n = read_full(input, &mut octets)?;
    if n == LONGEST {
        let_go(input)?;
    }
    let count = capture::list(&octets[..n], &mut out);
    output.write_all(&out[..count])
}

fn main(rt: HostRuntime) -> io::Result<()> {
    list(&mut rt.stdin(), &mut rt.stdout())
}
