// A request record: its octets at a place of a row, and what submit refuses in one. Nothing here knows a queue.
// Assumes nothing.
#![tactic(auto, using(crate::proofs::Look::fit), unfolding(choice::specs::Choice::pick, choice::specs::Choice::less, choice::specs::Choice::same, choice::specs::Choice::said, refusal::specs::Refusal::refused, refusal::specs::Refusal::number, crate::specs::Record::named, crate::specs::Record::flagged, crate::specs::Record::flag_octet, crate::specs::Record::limited, crate::specs::Record::misaddressed, crate::specs::Record::beyond, crate::specs::Record::unserved, crate::specs::Record::extensions, crate::specs::Record::overlong, crate::specs::Record::overlimit, crate::specs::Record::reference_at, crate::specs::Record::record_at, crate::specs::Record::octets, crate::specs::Record::reference_octets, crate::specs::Record::mispointed, crate::specs::Record::unfit))]

ghost use Rattle.std.specs.Prelude.{◌≡◌, ◌+◌, ◌≤◌, length};
ghost use Rattle.choice.specs.Choice.{less, same, either};
ghost use Rattle.laid.specs.Laid.{laid};
ghost use Rattle.request.specs.Record.{SIZE, record_at, octets, reference_at};
ghost use Rattle.request.specs.Record.{flagged as record_flagged, flag_octet, limited as record_limited};
ghost use Rattle.request.specs.Record.{named as record_named, misaddressed as record_misaddressed};
ghost use Rattle.request.specs.Record.{beyond as record_beyond, mispointed as record_mispointed};
ghost use Rattle.request.specs.Record.{unserved as record_unserved, extensions as record_extensions};
ghost use Rattle.request.specs.Record.{overlong as record_overlong, overlimit as record_overlimit};
ghost use Rattle.request.specs.Record.{unfit as record_unfit};
ghost use Rattle.refusal.specs.Refusal.{refused};

use frame::{Address, Point};
use refusal::Refusal;

// A request record. The service is 3 SDA, 4 SDN or 12 SRD; 255 stands for no access point; the status is 255 while the
// request waits, then the reply's code, 16 NA or 17 DS; the count is that of its sendings. The reference is the
// caller's, and nothing here reads it; the limit is how often the request is sent again at most, its own, or the
// station's where the record asks for that.
// Kept: the service, the access points and the status are numbers, as a record may offer any and submit refuses it by
// what the number is, and a row holds its octets as they are.
#[derive(Clone, Copy, Debug, PartialEq, Eq)]
pub struct Record {
    pub service: u8,
    pub destination: Address,
    pub to: Point,
    pub from: Point,
    pub length: u8,
    pub status: u8,
    pub count: u8,
    pub reference: u32,
    pub limit: u8,
    pub asks: bool,
}

// The services of a record.
pub const SDA: u8 = 3;

pub const SDN: u8 = 4;

pub const SRD: u8 = 12;

// The statuses that are no reply's code.
pub const NA: u8 = 16;

pub const DS: u8 = 17;

pub const WAITING: u8 = 255;

// The address of all stations, the most octets of a data unit, and the greatest retry limit.
const ALL: u8 = 127;

const UNIT: usize = 246;

const RETRIES: u8 = 15;

// The octets of a record, and each field's place among them.
pub const SIZE: usize = 13;

const SERVICE: usize = 0;

const DESTINATION: usize = 1;

const TO: usize = 2;

const FROM: usize = 3;

const LENGTH: usize = 4;

const STATUS: usize = 5;

const COUNT: usize = 6;

// The first of the reference's four octets.
const REFERENCE: usize = 7;

const LIMIT: usize = 11;

const ASKS: usize = 12;

// Whether a status is that of a confirmation.
pub fn named(status: u8) -> bool
    ensures { result ≡ record_named status }
{
    matches!(status, 0..=3 | 8..=10 | 12 | 13 | NA | DS)
}

// The reference of the record at a place: its four octets, the lowest first.
fn reference_at(row: &[u8], at: usize) -> u32
    requires { at + SIZE ≤ length row.now }
    ensures { result ≡ reference_at row.now at }
{
    u32::from_le_bytes([
        row[at + REFERENCE],
        row[at + REFERENCE + 1],
        row[at + REFERENCE + 2],
        row[at + REFERENCE + 3],
    ])
}

// Whether an octet says yes.
pub fn flagged(n: u8) -> bool
    ensures { result ≡ record_flagged n }
{
    0 < n
}

// The octet of a yes or no.
pub fn flag(b: bool) -> u8
    ensures { result ≡ flag_octet b }
{
    u8::from(b)
}

// The record of the octets from a place on.
pub fn read(row: &[u8], at: usize) -> Record
    requires { at + SIZE ≤ length row.now }
    ensures { result ≡ record_at row.now at }
{
    Record {
        service: row[at + SERVICE],
        destination: Address(row[at + DESTINATION]),
        to: Point(row[at + TO]),
        from: Point(row[at + FROM]),
        length: row[at + LENGTH],
        status: row[at + STATUS],
        count: row[at + COUNT],
        reference: reference_at(row, at),
        limit: row[at + LIMIT],
        asks: flagged(row[at + ASKS]),
    }
}

// Lays a record's octets from a place on.
pub fn write(row: &mut [u8], at: usize, r: Record)
    requires { at + SIZE ≤ length row.old }
    ensures { row.new ≡ laid row.old at (octets r) }
{
    let [a, b, c, d] = r.reference.to_le_bytes();
    let octets = [
        r.service,
        r.destination.0,
        r.to.0,
        r.from.0,
        r.length,
        r.status,
        r.count,
        a,
        b,
        c,
        d,
        r.limit,
        flag(r.asks),
    ];
    laid::lay(&octets, row, at);
}

// The record with the limit that it goes by: the station's if it asks for that, else its own.
pub fn limited(station: u8, r: Record) -> Record
    ensures { result ≡ record_limited station r }
{
    let limit = if r.asks { station } else { r.limit };
    Record { limit, ..r }
}

fn misaddressed(ts: u8, destination: u8, service: u8) -> bool
    ensures { result ≡ record_misaddressed ts destination service }
{
    ALL < destination || destination == ts || (destination == ALL && service != SDN)
}

fn beyond(point: u8, most: u8) -> bool
    ensures { result ≡ record_beyond point most }
{
    point != frame::NONE && most < point
}

fn mispointed(to: u8, from: u8, service: u8) -> bool
    ensures { result ≡ record_mispointed to from service }
{
    beyond(to, 63) || beyond(from, 62) || (to == 63 && service != SDN)
}

fn unserved(service: u8) -> bool
    ensures { result ≡ record_unserved service }
{
    !matches!(service, SDA | SDN | SRD)
}

fn extensions(point: u8) -> usize
    ensures { (result ≡ record_extensions point) × (result ≤ 1) }
{
    usize::from(point != frame::NONE)
}

fn overlong(to: u8, from: u8, n: usize) -> bool
    ensures { result ≡ record_overlong to from n }
{
    UNIT - (extensions(to) + extensions(from)) < n
}

fn overlimit(limit: u8) -> bool
    ensures { result ≡ record_overlimit limit }
{
    RETRIES < limit
}

// Whether an access point is none, or one that either side and every service may have.
fn usual(point: u8) -> bool
    ensures { result ≡ either (less point 63) (same point 255) }
{
    point < 63 || point == frame::NONE
}

// The refusal 23..26 or 30 of a request of station TS with n octets of data, if there is one. Most records are fit at
// the first look.
pub fn unfit(ts: Address, r: Record, n: usize) -> Result<(), Refusal>
    ensures { refused result ≡ record_unfit ts.0 r n }
{
    if r.destination.0 < ALL
        && r.destination != ts
        && usual(r.to.0)
        && usual(r.from.0)
        && n < 245
        && r.limit <= RETRIES
        && !unserved(r.service)
    {
        return Ok(());
    }
    if misaddressed(ts.0, r.destination.0, r.service) {
        return Err(Refusal::Destination);
    }
    if mispointed(r.to.0, r.from.0, r.service) {
        return Err(Refusal::AccessPoint);
    }
    if unserved(r.service) {
        return Err(Refusal::Service);
    }
    if overlong(r.to.0, r.from.0, n) {
        return Err(Refusal::Data);
    }
    if overlimit(r.limit) {
        return Err(Refusal::Limit);
    }
    Ok(())
}
