// The state of a station and what a call answers; the definitions of every rule of document 01's "Station" are in
// specs/. Assumes nothing.
#![tactic(auto)]

ghost use Rattle.std.specs.Prelude.{◌≡◌};

use clock::BitTime;
use control::{Code, Kind};
use frame::{Address, Head, Part};
use queue::Queue;
use request::Record;
use ring::Masters;
use times::Settings;

// The most octets of an update.
pub const UPDATE: usize = 244;

// The address that stands for no station: no first token is remembered, or no request.
pub const NOBODY: u8 = 127;

// The phases: Idle, Reply awaited, SDN going out, Pass checked, Pass to self.
#[derive(Clone, Copy)]
pub enum Phase {
    Idle,
    Awaited,
    Sdn,
    Check,
    ToSelf,
}

// The two queues.
#[derive(Clone, Copy)]
pub enum Priority {
    High,
    Low,
}

// What the station is doing: its phase, the queue being served, the sendings so far of what is being sent, and whether
// its last sending in the hold was an SDN.
#[derive(Clone, Copy)]
pub struct Doing {
    pub phase: Phase,
    pub served: Priority,
    pub sendings: u8,
    pub sdn: bool,
}

// The acceptance of this hold and the one before, and how many holds began since the start or reset, counted to two.
#[derive(Clone, Copy)]
pub struct Hold {
    pub acceptance: BitTime,
    pub before: BitTime,
    pub begun: u8,
}

// What every decision goes by. The stranger is the sender of a first token, 127 for none.
// Kept: 127 and no Option, here and in what is kept: a caller may hold any number, `lawless` refuses one over 127 by 29,
// and Some of 127 would be a second none.
#[derive(Clone, Copy)]
pub struct Core {
    pub settings: Settings,
    pub ts: Address,
    pub ps: Address,
    pub stranger: Address,
    pub doing: Doing,
    pub hold: Hold,
    pub high: Queue,
    pub low: Queue,
}

// The frame count mark of each address: the next bit, or 2 for unknown.
#[derive(Clone, Copy)]
pub struct Marks(pub [u8; 127]);

// The active access points: 1 at each point 0..62 that is active, and at 63 if "none" is.
#[derive(Clone, Copy)]
pub struct Points(pub [u8; 64]);

// Whose request was answered, 127 for none, with which bit, and how many octets the reply has.
#[derive(Clone, Copy)]
pub struct Kept {
    pub source: Address,
    pub bit: bool,
    pub length: u16,
}

// The answering memory, with the reply's octets.
#[derive(Clone, Copy)]
pub struct Memory {
    pub kept: Kept,
    pub octets: [u8; 255],
}

// The state of a station.
#[derive(Clone, Copy)]
pub struct State {
    pub core: Core,
    pub masters: Masters,
    pub started: Masters,
    pub marks: Marks,
    pub points: Points,
    pub memory: Memory,
}

// The rows of both queues with their data areas, lent to a call.
#[derive(Drop)]
pub struct Rows<'a> {
    pub high: &'a mut [u8],
    pub high_area: &'a mut [u8],
    pub low: &'a mut [u8],
    pub low_area: &'a mut [u8],
}

// The same where they are only read.
#[derive(Clone, Copy)]
pub struct SharedRows<'a> {
    pub high: &'a [u8],
    pub high_area: &'a [u8],
    pub low: &'a [u8],
    pub low_area: &'a [u8],
}

impl Rows<'_> {
    // The rows, to be read.
    pub fn shared(&self) -> SharedRows<'_>
        ensures { (result.high.now ≡ self.now.high.now)
            × ((result.high_area.now ≡ self.now.high_area.now)
            × ((result.low.now ≡ self.now.low.now) × (result.low_area.now ≡ self.now.low_area.now))) }
    {
        SharedRows {
            high: self.high,
            high_area: self.high_area,
            low: self.low,
            low_area: self.low_area,
        }
    }
}

// A request that the station shows its caller: its fields, and where its data lie in the frame.
#[derive(Clone, Copy)]
pub struct Indication {
    pub head: Head,
    pub part: Part,
}

// What an act on the site leaves: the core, how many octets to send, and after which wait.
#[derive(Clone, Copy)]
pub struct Moved {
    pub core: Core,
    pub length: usize,
    pub wait: BitTime,
}

// What is answered to a request: what the memory keeps but for the octets, how many octets to send and after which
// wait, and what is indicated.
#[derive(Clone, Copy)]
pub struct Spoken {
    pub kept: Kept,
    pub length: usize,
    pub wait: BitTime,
    pub indication: Option<Indication>,
}

// What frame, sent and slot answer where the arrays of the state are lent: the core and what the memory keeps, how many
// octets to send and after which wait, and what is indicated.
#[derive(Clone, Copy)]
pub struct Heard {
    pub core: Core,
    pub kept: Kept,
    pub length: usize,
    pub wait: BitTime,
    pub indication: Option<Indication>,
}

// What frame, sent and slot answer: the state, how many octets to send and after which wait, and what is indicated.
#[derive(Clone, Copy)]
pub struct Answer {
    pub state: State,
    pub length: usize,
    pub wait: BitTime,
    pub indication: Option<Indication>,
}

// What submit answers: the state, and the place taken.
#[derive(Clone, Copy)]
pub struct Accepted {
    pub state: State,
    pub place: u8,
}

// What collect answers: the state, and the record handed back with its place's number.
#[derive(Clone, Copy)]
pub struct HandedBack {
    pub state: State,
    pub place: u8,
    pub entry: Record,
}

// How a request ends: with a plausible reply's status, lost, or, an SDN, gone out.
#[derive(Clone, Copy)]
pub enum Outcome {
    Replied(u8),
    Lost,
    Gone,
}

// What a good frame is to the request whose reply is awaited: a plausible reply with its status, a reply in vain, or a
// request or token.
#[derive(Clone, Copy)]
pub enum Verdict {
    Plausible(u8),
    Vain,
    Foreign,
}

// What a hold goes on with: a queue's first request, or the pass of the token.
// Kept: no Option<Priority>, since the pass is something that is done, and None would say nothing of it.
#[derive(Clone, Copy)]
pub enum Choice {
    Serve(Priority),
    PassOn,
}

// What the answering side answers as: its TS, its station type, and the wait before each reply.
#[derive(Clone, Copy)]
pub struct Responder {
    pub ts: Address,
    pub kind: Kind,
    pub wait: BitTime,
}

// What a request's service asks of the answering side: as an SDA, as an SRD, an indication, the status, or nothing.
#[derive(Clone, Copy)]
pub enum Asks {
    Sda,
    Srd,
    Sdn,
    Status,
    Never,
}

// What is given to a request: a short acknowledgement, or a reply with a code.
// Kept: no Option<Code>, since an acknowledgement is an answer, and None would say that there is none.
#[derive(Clone, Copy)]
pub enum Given {
    Acknowledged,
    Coded(Code),
}

// The answer to a new SDA or SRD, and whether it is indicated.
#[derive(Clone, Copy)]
pub struct New {
    pub given: Given,
    pub indicated: bool,
}
