// What the C boundary holds of a station: numbers for the core and for what the memory keeps, and for an indication.
// Every number is taken; where one stands for no case, the station has TS 127, which every call refuses. Assumes
// nothing.
// Kept: numbers in place of enums and a field for the refusal, here and below, because the C interface has them so.
#![tactic(auto, unfolding(choice::specs::Choice::pick, choice::specs::Choice::same, choice::specs::Choice::less, choice::specs::Choice::said, crate::specs::Numbers::phase_number, crate::specs::Numbers::phase_of, crate::specs::Numbers::served_number, crate::specs::Numbers::served_of, crate::specs::Numbers::flag_number, crate::specs::Numbers::flag_of, crate::specs::Numbers::malformed, crate::specs::Numbers::ts_in, crate::specs::Numbers::settings_in, crate::specs::Numbers::settings_of, crate::specs::Numbers::doing_in, crate::specs::Numbers::hold_in, crate::specs::Numbers::high_in, crate::specs::Numbers::low_in, crate::specs::Numbers::core_in, crate::specs::Numbers::kept_in, crate::specs::Numbers::numbers_of, crate::specs::Numbers::indication_of))]

ghost use Rattle.std.specs.Prelude.{◌≡◌};
ghost use Rattle.c_core.specs.Numbers.{phase_of, served_of, malformed as numbers_malformed, ts_in, settings_in};
ghost use Rattle.c_core.specs.Numbers.{settings_of, doing_in, hold_in, high_in, low_in, core_in, kept_in};
ghost use Rattle.c_core.specs.Numbers.{numbers_of, indication_of};

use clock::BitTime;
use frame::Address;
use queue::Queue;
use state::{Core, Doing, Hold, Indication, Kept, Phase, Priority};
use times::{Count, Settings};

// A station's settings.
#[repr(C)]
#[derive(Clone, Copy)]
pub struct FlatSettings {
    pub tset: u32,
    pub tqui: u32,
    pub mintsdr: u32,
    pub maxtsdr: u32,
    pub ttd: u32,
    pub ttr: u32,
    pub retries: u32,
    pub tsdi: u32,
}

// The core of a station and what its memory keeps, as numbers. Phase is 0 Idle, 1 Reply awaited, 2 SDN going out, 3
// Pass checked, 4 Pass to self; served is 0 for the high queue, 1 for the low; sdn and bit are 0 or 1.
#[repr(C)]
#[derive(Clone, Copy)]
pub struct Numbers {
    pub settings: FlatSettings,
    pub acceptance: u32,
    pub before: u32,
    pub ts: u8,
    pub ps: u8,
    pub stranger: u8,
    pub phase: u8,
    pub served: u8,
    pub sendings: u8,
    pub sdn: u8,
    pub begun: u8,
    pub highplaces: u8,
    pub highfirst: u8,
    pub highconfirmed: u8,
    pub highunconfirmed: u8,
    pub lowplaces: u8,
    pub lowfirst: u8,
    pub lowconfirmed: u8,
    pub lowunconfirmed: u8,
    pub source: u8,
    pub bit: u8,
    pub length: u16,
}

// A request that is shown: indicated is 1, and its fields and where its data lie follow; or nothing, and indicated is
// 0.
#[repr(C)]
#[derive(Clone, Copy)]
pub struct FlatIndication {
    pub indicated: u8,
    pub control: u8,
    pub destination: u8,
    pub to: u8,
    pub source: u8,
    pub from: u8,
    pub start: usize,
    pub count: usize,
}

fn phase_of(n: u8) -> Phase
    ensures { result ≡ phase_of n }
{
    match n {
        1 => Phase::Awaited,
        2 => Phase::Sdn,
        3 => Phase::Check,
        4 => Phase::ToSelf,
        _ => Phase::Idle,
    }
}

fn served_of(n: u8) -> Priority
    ensures { result ≡ served_of n }
{
    if n == 1 {
        Priority::Low
    } else {
        Priority::High
    }
}

// Whether a number stands for no case.
fn malformed(phase: u8, served: u8, sdn: u8, bit: u8) -> bool
    ensures { result ≡ numbers_malformed phase served sdn bit }
{
    4 < phase || 1 < served || 1 < sdn || 1 < bit
}

fn ts_in(n: Numbers) -> Address
    ensures { result ≡ ts_in n }
{
    let ts = if malformed(n.phase, n.served, n.sdn, n.bit) {
        127
    } else {
        n.ts
    };
    Address(ts)
}

// The settings that numbers mean.
impl From<FlatSettings> for Settings {
    fn from(s: FlatSettings) -> Settings
        ensures { result ≡ settings_in s }
    {
        Settings {
            tset: BitTime(s.tset),
            tqui: BitTime(s.tqui),
            mintsdr: BitTime(s.mintsdr),
            maxtsdr: BitTime(s.maxtsdr),
            ttd: BitTime(s.ttd),
            ttr: BitTime(s.ttr),
            retries: Count(s.retries),
            tsdi: BitTime(s.tsdi),
        }
    }
}

// The numbers of settings.
impl From<Settings> for FlatSettings {
    fn from(s: Settings) -> FlatSettings
        ensures { result ≡ settings_of s }
    {
        FlatSettings {
            tset: s.tset.0,
            tqui: s.tqui.0,
            mintsdr: s.mintsdr.0,
            maxtsdr: s.maxtsdr.0,
            ttd: s.ttd.0,
            ttr: s.ttr.0,
            retries: s.retries.0,
            tsdi: s.tsdi.0,
        }
    }
}

impl From<Numbers> for Doing {
    fn from(n: Numbers) -> Doing
        ensures { result ≡ doing_in n }
    {
        Doing {
            phase: phase_of(n.phase),
            served: served_of(n.served),
            sendings: n.sendings,
            sdn: n.sdn == 1,
        }
    }
}

impl From<Numbers> for Hold {
    fn from(n: Numbers) -> Hold
        ensures { result ≡ hold_in n }
    {
        Hold {
            acceptance: BitTime(n.acceptance),
            before: BitTime(n.before),
            begun: n.begun,
        }
    }
}

// Kept: twins, because the C interface has the numbers of both queues as fields of one struct.
fn high_in(n: Numbers) -> Queue
    ensures { result ≡ high_in n }
{
    Queue {
        places: n.highplaces,
        first: n.highfirst,
        confirmed: n.highconfirmed,
        unconfirmed: n.highunconfirmed,
    }
}

fn low_in(n: Numbers) -> Queue
    ensures { result ≡ low_in n }
{
    Queue {
        places: n.lowplaces,
        first: n.lowfirst,
        confirmed: n.lowconfirmed,
        unconfirmed: n.lowunconfirmed,
    }
}

// The core that numbers mean.
impl From<Numbers> for Core {
    fn from(n: Numbers) -> Core
        ensures { result ≡ core_in n }
    {
        Core {
            settings: Settings::from(n.settings),
            ts: ts_in(n),
            ps: Address(n.ps),
            stranger: Address(n.stranger),
            doing: Doing::from(n),
            hold: Hold::from(n),
            high: high_in(n),
            low: low_in(n),
        }
    }
}

// What the memory keeps, as numbers mean it.
impl From<Numbers> for Kept {
    fn from(n: Numbers) -> Kept
        ensures { result ≡ kept_in n }
    {
        Kept {
            source: Address(n.source),
            bit: n.bit == 1,
            length: n.length,
        }
    }
}

// The numbers of a core and of what the memory keeps.
pub fn numbers_of(c: Core, k: Kept) -> Numbers
    ensures { result ≡ numbers_of c k }
{
    Numbers {
        settings: FlatSettings::from(c.settings),
        acceptance: c.hold.acceptance.0,
        before: c.hold.before.0,
        ts: c.ts.0,
        ps: c.ps.0,
        stranger: c.stranger.0,
        phase: c.doing.phase as u8,
        served: c.doing.served as u8,
        sendings: c.doing.sendings,
        sdn: u8::from(c.doing.sdn),
        begun: c.hold.begun,
        highplaces: c.high.places,
        highfirst: c.high.first,
        highconfirmed: c.high.confirmed,
        highunconfirmed: c.high.unconfirmed,
        lowplaces: c.low.places,
        lowfirst: c.low.first,
        lowconfirmed: c.low.confirmed,
        lowunconfirmed: c.low.unconfirmed,
        source: k.source.0,
        bit: u8::from(k.bit),
        length: k.length,
    }
}

// An indication as numbers.
pub fn indication(i: Option<Indication>) -> FlatIndication
    ensures { result ≡ indication_of i }
{
    match i {
        Some(Indication { head, part }) => FlatIndication {
            indicated: 1,
            control: control::fc(head.control),
            destination: head.destination.0,
            to: frame::point_of(head.to),
            source: head.source.0,
            from: frame::point_of(head.from),
            start: part.start,
            count: part.count,
        },
        None => FlatIndication {
            indicated: 0,
            control: 0,
            destination: 0,
            to: frame::NONE,
            source: 0,
            from: frame::NONE,
            start: 0,
            count: 0,
        },
    }
}
