// The station's times and its ring for the tests outside Rattle, as C functions. Numbers go in and
// structs of numbers come out; every input has an answer. Assumes nothing.
// Kept: numbers, a field for the refusal, and parameters one by one, because the C interface has them so.
#![tactic(auto, using(crate::proofs::reckoned::Laws::reckoned_small), unfolding(choice::specs::Choice::pick, choice::specs::Choice::said, choice::specs::Choice::less, times::specs::Times::told, crate::specs::Parts::flat_times, crate::specs::Parts::reckons, crate::specs::Parts::is_left, crate::specs::Parts::nexts, crate::specs::Parts::previouses))]

ghost use Rattle.std.specs.Prelude.{◌≡◌};
ghost use Rattle.ring.specs.Ring.{enter, remove};
ghost use Rattle.times.specs.Times.{Small};
ghost use Rattle.times.specs.Times.{Refused, Reckon};
ghost use Rattle.test_parts.specs.Parts.{settings_from, flat_times, reckons, is_left, nexts, previouses};

use clock::BitTime;
use frame::Address;
use times::{Count, Sending, Settings, Times};

// The times that follow from settings, and the waits: refused is 0 or the refusal, and then all others are 0.
#[repr(C)]
#[derive(Clone, Copy, Default)]
pub struct FlatTimes {
    pub refused: u8,
    pub tsm: u32,
    pub tid1: u32,
    pub tid2: u32,
    pub tsl: u32,
    pub tto: u32,
    pub reply: u32,
    pub aftersdn: u32,
    pub other: u32,
}

fn flat_refused(n: u8, s: Settings) -> FlatTimes
    ensures { result ≡ flat_times s (Refused n) }
{
    FlatTimes {
        refused: n,
        ..FlatTimes::default()
    }
}

fn flat_times(t: Times, s: Settings) -> FlatTimes
    requires { Small s }
    ensures { result ≡ flat_times s (Reckon t) }
{
    FlatTimes {
        refused: 0,
        tsm: t.tsm.0,
        tid1: t.tid1.0,
        tid2: t.tid2.0,
        tsl: t.tsl.0,
        tto: t.tto.0,
        reply: times::wait(s, Sending::Reply).0,
        aftersdn: times::wait(s, Sending::AfterSdn).0,
        other: times::wait(s, Sending::Other).0,
    }
}

// Reckons the times of a station from its settings and its address.
#[unsafe(no_mangle)]
pub extern "C" fn parts_reckon(
    tset: u32,
    tqui: u32,
    mintsdr: u32,
    maxtsdr: u32,
    ttd: u32,
    ttr: u32,
    retries: u32,
    tsdi: u32,
    ts: u8,
) -> FlatTimes
    ensures { result ≡ reckons (settings_from tset tqui mintsdr maxtsdr ttd ttr retries tsdi) ts }
{
    let s = Settings {
        tset: BitTime(tset),
        tqui: BitTime(tqui),
        mintsdr: BitTime(mintsdr),
        maxtsdr: BitTime(maxtsdr),
        ttd: BitTime(ttd),
        ttr: BitTime(ttr),
        retries: Count(retries),
        tsdi: BitTime(tsdi),
    };
    match times::reckon(s, Address(ts)) {
        Ok(t) => flat_times(t, s),
        Err(r) => flat_refused(r.number(), s),
    }
}

// Whether time is left, as 1 or 0.
#[unsafe(no_mangle)]
pub extern "C" fn parts_left(clock: u32, acceptance: u32, ttr: u32) -> u8
    ensures { result ≡ is_left clock acceptance ttr }
{
    u8::from(clock::time_left(BitTime(clock), BitTime(acceptance), BitTime(ttr)))
}

// NS of a station, or 255 if it is none.
#[unsafe(no_mangle)]
pub extern "C" fn parts_next(masters: &[u8; 127], ts: u8) -> u8
    ensures { result ≡ nexts masters.now ts }
{
    if 126 < ts {
        255
    } else {
        ring::next(masters, Address(ts)).0
    }
}

// PS of a station at the start, or 255 if it is none.
#[unsafe(no_mangle)]
pub extern "C" fn parts_previous(masters: &[u8; 127], ts: u8) -> u8
    ensures { result ≡ previouses masters.now ts }
{
    if 126 < ts {
        255
    } else {
        ring::previous(masters, Address(ts)).0
    }
}

// A station enters the set, or leaves it; an address that no station has changes nothing.
#[unsafe(no_mangle)]
pub extern "C" fn parts_enter(masters: &mut [u8; 127], a: u8)
    ensures { masters.new ≡ enter masters.old a }
{
    ring::enter(masters, Address(a));
}

#[unsafe(no_mangle)]
pub extern "C" fn parts_remove(masters: &mut [u8; 127], a: u8)
    ensures { masters.new ≡ remove masters.old a }
{
    ring::remove(masters, Address(a));
}
