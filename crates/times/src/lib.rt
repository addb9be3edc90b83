// The times of a station: its settings, what follows from them and the wait of each sending. Nothing here knows a phase
// or a frame. Assumes nothing.
#![tactic(auto, unfolding(choice::specs::Choice::pick, choice::specs::Choice::less, choice::specs::Choice::said, crate::specs::Times::outside, crate::specs::Times::tsm, crate::specs::Times::tid1, crate::specs::Times::tid2, crate::specs::Times::tsl, crate::specs::Times::too_long, crate::specs::Times::standard, crate::specs::Times::wait_of))]

ghost use Rattle.std.specs.Prelude.{◌≡◌, ◌+◌, ◌≤◌};
ghost use Rattle.times.specs.Times.{Small, unruly_delays, too_long, times_of, reckoned, wait_of};
ghost use Rattle.times.specs.Times.{outside as times_outside, tsm as times_tsm, tid1 as times_tid1};
ghost use Rattle.times.specs.Times.{tid2 as times_tid2, tsl as times_tsl, tto as times_tto};
ghost use Rattle.times.specs.Times.{unruly as times_unruly, standard as times_standard, told as times_told};

use clock::BitTime;
use frame::Address;
use refusal::Refusal;

// A count.
#[derive(Clone, Copy, Debug, PartialEq, Eq)]
pub struct Count(pub u32);

// A station's settings, as offered: each is wide enough that an out-of-rule value can be refused.
#[derive(Clone, Copy, Debug, PartialEq, Eq)]
pub struct Settings {
    pub tset: BitTime,
    pub tqui: BitTime,
    pub mintsdr: BitTime,
    pub maxtsdr: BitTime,
    pub ttd: BitTime,
    pub ttr: BitTime,
    pub retries: Count,
    pub tsdi: BitTime,
}

// What is being sent, as its wait goes by it: a reply, a request or token after an SDN of this hold, or any other.
#[derive(Clone, Copy, Debug, PartialEq, Eq)]
pub enum Sending {
    Reply,
    AfterSdn,
    Other,
}

// The standard settings. They have no retries: who wants some says so.
pub const STANDARD: Settings = Settings {
    tset: BitTime(20),
    tqui: BitTime(0),
    mintsdr: BitTime(20),
    maxtsdr: BitTime(400),
    ttd: BitTime(1),
    ttr: BitTime(10000),
    retries: Count(0),
    tsdi: BitTime(0),
};

// The standard settings, by their definition.
pub fn standard() -> Settings
    ensures { result ≡ times_standard }
{
    STANDARD
}

// The times that follow from settings.
#[derive(Clone, Copy, Debug, PartialEq, Eq)]
pub struct Times {
    pub tsm: BitTime,
    pub tid1: BitTime,
    pub tid2: BitTime,
    pub tsl: BitTime,
    pub tto: BitTime,
}

fn outside(n: u32, least: u32, most: u32) -> bool
    ensures { result ≡ times_outside n least most }
{
    !(least..=most).contains(&n)
}

// TSM, Tid1, Tid2 and TSL of settings whose sums are small.
fn tsm(s: Settings) -> u32
    requires { Small s }
    ensures { (result ≡ times_tsm s) × (result ≤ 767) }
{
    2 + 2 * s.tset.0 + s.tqui.0
}

// 33 + TSM, which Tid1 and Tid2 share: what the line itself needs.
fn line(s: Settings) -> u32
    requires { Small s }
    ensures { (result ≡ 33 + times_tsm s) × (result ≤ 800) }
{
    33 + tsm(s)
}

fn tid1(s: Settings) -> u32
    requires { Small s }
    ensures { (result ≡ times_tid1 s) × (result ≤ 65535) }
{
    line(s).max(s.mintsdr.0).max(s.tsdi.0)
}

fn tid2(s: Settings) -> u32
    requires { Small s }
    ensures { result ≡ times_tid2 s }
{
    line(s).max(s.maxtsdr.0)
}

fn tsl(s: Settings) -> u32
    requires { Small s }
    ensures { (result ≡ times_tsl s) × (result ≤ 197383) }
{
    2 * s.ttd.0 + 11 + tsm(s) + s.maxtsdr.0.max(tid1(s))
}

// Whether TSL is over its bound.
fn too_long(s: Settings) -> bool
    requires { Small s }
    ensures { result ≡ too_long s }
{
    65535 < tsl(s)
}

// Whether the delays of the line and of its stations are out of rule.
#[tactic(auto, unfolding(choice::specs::Choice::pick, choice::specs::Choice::less, choice::specs::Choice::said, crate::specs::Times::unruly_delays))]
fn unruly_delays(s: Settings) -> bool
    ensures { result ≡ unruly_delays s }
{
    outside(s.tset.0, 20, 255)
        || 255 < s.tqui.0
        || outside(s.mintsdr.0, 20, 65535)
        || s.mintsdr.0 <= s.tqui.0
        || outside(s.maxtsdr.0, s.mintsdr.0, 65535)
        || 65535 < s.ttd.0
}

// Whether settings are out of rule.
#[tactic(auto, using(crate::proofs::Rules::small_settings), unfolding(choice::specs::Choice::pick, choice::specs::Choice::less, choice::specs::Choice::said, crate::specs::Times::unruly))]
pub fn unruly(s: Settings) -> bool
    ensures { result ≡ times_unruly s }
{
    unruly_delays(s)
        || outside(s.ttr.0, 20, 16777215)
        || 15 < s.retries.0
        || 65535 < s.tsdi.0
        || too_long(s)
}

// The times of a station whose sums are small.
#[tactic(auto, using(crate::proofs::Rules::small_product), unfolding(crate::specs::Times::times_of, crate::specs::Times::tto))]
fn times_of(s: Settings, ts: Address) -> Times
    requires { Small s × (ts.0 ≤ 126) }
    ensures { result ≡ times_of s ts.0 }
{
    let slot = tsl(s);
    Times {
        tsm: BitTime(tsm(s)),
        tid1: BitTime(tid1(s)),
        tid2: BitTime(tid2(s)),
        tsl: BitTime(slot),
        tto: BitTime(6 * slot + 2 * u32::from(ts.0) * slot),
    }
}

// The times of a station with an address.
#[tactic(auto, using(crate::proofs::Rules::small_settings), unfolding(choice::specs::Choice::pick, choice::specs::Choice::less, choice::specs::Choice::said, crate::specs::Times::reckoned, crate::specs::Times::told, refusal::specs::Refusal::number))]
pub fn reckon(s: Settings, ts: Address) -> Result<Times, Refusal>
    ensures { times_told result ≡ reckoned s ts.0 }
{
    if unruly(s) || 126 < ts.0 {
        return Err(Refusal::Setting);
    }
    Ok(times_of(s, ts))
}

// The wait of a sending.
pub fn wait(s: Settings, sending: Sending) -> BitTime
    requires { Small s }
    ensures { result.0 ≡ wait_of s sending }
{
    match sending {
        Sending::Reply => s.mintsdr,
        Sending::AfterSdn => BitTime(tid2(s)),
        Sending::Other => BitTime(tid1(s)),
    }
}
