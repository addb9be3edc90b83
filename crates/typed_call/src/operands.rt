// What the words of a line of the replay script give the call that the line is. Any line gives something; what a call's
// line means stands in specs/. Assumes nothing.
ghost use Rattle.std.specs.Prelude.{◌≡◌, ◌≤◌, length, take};
ghost use Rattle.std.specs.Option.{unwrap_or};
ghost use Rattle.typed.specs.Words.{word};
ghost use Rattle.typed.specs.Places.{access as places_access, service as places_service, LONG as places_long};
ghost use Rattle.typed.specs.Places.{LONGEST, MOSTOCTETS};
ghost use Rattle.typed_call.specs.Table.{SERVICE};
ghost use Rattle.typed_call.specs.Operands.{number_at, octets_at, octet as operands_octet};
ghost use Rattle.typed_call.specs.Operands.{point as operands_point, settings_of, ts_of, masters_of, points_of};
ghost use Rattle.typed_call.specs.Operands.{high_of, low_of, queue_of, request_of, clock_of, room_of};

use super::{pairs, table};
use clock::BitTime;
use frame::{Address, Point};
use request::Record;
use ring::Masters;
use state::{Points, Priority};
use times::{Count, Settings};
use typed::places::{LONG, SHORT};
use typed::{digits, lists, places, words};

// The number that word k is, of at most a greatest.
#[tactic(auto, unfolding(crate::specs::Operands::number_at))]
fn number(line: &[u8], k: usize, most: u32) -> u32
    ensures { result ≡ number_at line.now k most }
{
    digits::decimal(words::word(line, k), most).unwrap_or(0)
}

// A bit time that word k is.
fn time(line: &[u8], k: usize) -> BitTime
    ensures { result.0 ≡ number_at line.now k places_long }
{
    BitTime(number(line, k, LONG))
}

// The clock of frame, sent and slot.
pub fn clock(line: &[u8]) -> BitTime
    ensures { result.0 ≡ clock_of line.now }
{
    time(line, table::CLOCK)
}

// The octets that word k is, laid at the start of an output, and their count.
pub fn octets(line: &[u8], k: usize, out: &mut [u8]) -> usize
    requires { (length line.now ≤ LONGEST) × (MOSTOCTETS ≤ length out.old) }
    ensures { (take result out.new ≡ octets_at line.now k) × (result ≤ length out.new) }
{
    digits::hex(words::word(line, k), out).unwrap_or(0)
}

// A number as an octet, one over 255 as 255.
#[tactic(auto, unfolding(choice::specs::Choice::pick, choice::specs::Choice::less, crate::specs::Operands::octet))]
fn octet(n: u32) -> u8
    ensures { result ≡ operands_octet n }
{
    u8::try_from(n).unwrap_or(255)
}

// An access point or none.
#[tactic(auto, unfolding(choice::specs::Choice::pick, choice::specs::Choice::same, crate::specs::Operands::point))]
fn point(n: u32) -> Point
    ensures { result.0 ≡ operands_point n }
{
    match n {
        255 => Point(254),
        _ => Point(octet(n)),
    }
}

// The settings of start.
#[tactic(auto, unfolding(crate::specs::Operands::settings_of))]
pub fn settings(line: &[u8]) -> Settings
    ensures { result ≡ settings_of line.now }
{
    Settings {
        tset: time(line, table::TSET),
        tqui: time(line, table::TQUI),
        mintsdr: time(line, table::MINTSDR),
        maxtsdr: time(line, table::MAXTSDR),
        ttd: time(line, table::TTD),
        ttr: time(line, table::TTR),
        retries: Count(number(line, table::RETRY, LONG)),
        tsdi: BitTime(pairs::tsdi(line).number.unwrap_or(0)),
    }
}

// TS of start.
#[tactic(auto, unfolding(crate::specs::Operands::ts_of))]
pub fn ts(line: &[u8]) -> Address
    ensures { result.0 ≡ ts_of line.now }
{
    Address(octet(number(line, table::TS, LONG)))
}

// The set of masters of start.
// Kept: twins with `points`, as the sets are of two types and two sizes.
#[tactic(auto, unfolding(typed::specs::Lists::listed, crate::specs::Operands::masters_of))]
pub fn masters(line: &[u8]) -> Masters
    ensures { result.0 ≡ masters_of line.now }
{
    let mut set = [0u8; 127];
    let _good = lists::masters(words::word(line, table::MASTERS), &mut set);
    Masters(set)
}

// The active access points of start.
#[tactic(auto, unfolding(typed::specs::Lists::listed, crate::specs::Operands::points_of))]
pub fn points(line: &[u8]) -> Points
    ensures { result.0 ≡ points_of line.now }
{
    let mut set = [0u8; 64];
    let _good = lists::points(words::word(line, table::POINTS), &mut set);
    Points(set)
}

// The row lengths of start.
pub fn high(line: &[u8]) -> usize
    ensures { result ≡ high_of line.now }
{
    number(line, table::HIGHROW, SHORT) as usize
}

pub fn low(line: &[u8]) -> usize
    ensures { result ≡ low_of line.now }
{
    number(line, table::LOWROW, SHORT) as usize
}

// The queue of submit and collect.
#[tactic(auto, unfolding(choice::specs::Choice::pick, choice::specs::Choice::same, crate::specs::Operands::queue_of))]
pub fn queue(line: &[u8]) -> Priority
    ensures { result ≡ queue_of line.now }
{
    match places::queue(words::word(line, table::QUEUE)) {
        None | Some(0) => Priority::High,
        Some(_) => Priority::Low,
    }
}

// An access point of submit, at word k.
fn point_at(line: &[u8], k: usize) -> Point
    ensures { result.0 ≡ operands_point (unwrap_or (places_access (word line.now k)) 0) }
{
    point(places::access(words::word(line, k)).unwrap_or(0))
}

// The service of submit.
fn service(line: &[u8]) -> u8
    ensures { result ≡ operands_octet (unwrap_or (places_service (word line.now SERVICE)) 0) }
{
    octet(places::service(words::word(line, table::SERVICE)).unwrap_or(0))
}

// The request of submit.
#[tactic(auto, unfolding(crate::specs::Operands::request_of))]
pub fn request(line: &[u8]) -> Record
    ensures { result ≡ request_of line.now }
{
    Record {
        service: service(line),
        destination: Address(octet(number(line, table::DA, SHORT))),
        to: point_at(line, table::DSAP),
        from: point_at(line, table::SSAP),
        length: 0,
        status: request::WAITING,
        count: 0,
        reference: pairs::reference(line).number.unwrap_or(0),
        limit: octet(pairs::limit(line).number.unwrap_or(0)),
        asks: pairs::asks(line),
    }
}

// Whether the caller of frame has room for an indication.
#[tactic(auto, unfolding(choice::specs::Choice::same, crate::specs::Operands::room_of))]
pub fn room(line: &[u8]) -> bool
    ensures { result ≡ room_of line.now }
{
    places::room(words::word(line, table::ROOM)) == Some(1)
}
