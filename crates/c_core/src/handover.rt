// What a station's calls take and hand over at the C boundary: a state from numbers and lent arrays, and each answer
// as a struct of numbers. Where a call is refused, the core handed over is the one it was given. Assumes nothing.
// Kept: numbers in place of enums and a field for the refusal, here and below, because the C interface has them so.
#![tactic(auto, unfolding(choice::specs::Choice::pick, choice::specs::Choice::same, crate::specs::Handover::state_in, crate::specs::Handover::request_from, crate::specs::Handover::room_of))]

ghost use Rattle.std.specs.Prelude.{◌≡◌};
ghost use Rattle.state.specs.Told.{accepted_by, answered_by, blank, handed_back_by, heard_by, renewed_by};
ghost use Rattle.c_core.specs.Handover.{state_in, request_from, room_of, flat_accepted, flat_collected};
ghost use Rattle.c_core.specs.Handover.{flat_renewed, flat_started, flat_answer};
ghost use Rattle.c_core.specs.Numbers.{numbers_of};

use super::numbers;
use super::numbers::{FlatIndication, FlatSettings, Numbers};
use frame::{Address, Point};
use refusal::Refusal;
use request::Record;
use ring::Masters;
use state::{Accepted, Core, HandedBack, Heard, Kept, Marks, Memory, Points, State};

// What submit answers: the refusal or 0, and the place taken.
#[repr(C)]
#[derive(Clone, Copy)]
pub struct FlatAccepted {
    pub refused: u8,
    pub place: u8,
    pub core: Numbers,
}

// What collect answers: the refusal or 0, and the record handed back with its place's number, its reference last.
#[repr(C)]
#[derive(Clone, Copy)]
pub struct FlatCollected {
    pub refused: u8,
    pub place: u8,
    pub service: u8,
    pub destination: u8,
    pub to: u8,
    pub from: u8,
    pub length: u8,
    pub status: u8,
    pub count: u8,
    pub limit: u8,
    pub asks: u8,
    pub reference: u32,
    pub core: Numbers,
}

// What start and reset answer: the refusal or 0.
#[repr(C)]
#[derive(Clone, Copy)]
pub struct FlatRenewed {
    pub refused: u8,
    pub core: Numbers,
}

// What frame, sent and slot answer: the refusal or 0, how many octets to send and after which wait, and what is
// indicated.
#[repr(C)]
#[derive(Clone, Copy)]
pub struct FlatAnswer {
    pub refused: u8,
    pub wait: u32,
    pub length: usize,
    pub indication: FlatIndication,
    pub core: Numbers,
}

// The state that numbers and lent arrays mean.
pub fn state_in(
    n: Numbers,
    masters: &[u8; 127],
    started: &[u8; 127],
    marks: &[u8; 127],
    points: &[u8; 64],
    octets: &[u8; 255],
) -> State
    ensures { result
        ≡ state_in n masters.now started.now marks.now points.now
        octets.now }
{
    State {
        core: Core::from(n),
        masters: Masters(*masters),
        started: Masters(*started),
        marks: Marks(*marks),
        points: Points(*points),
        memory: Memory {
            kept: Kept::from(n),
            octets: *octets,
        },
    }
}

// The request that numbers mean, as submit takes it.
pub fn request_from(
    service: u8,
    destination: u8,
    to: u8,
    from: u8,
    reference: u32,
    limit: u8,
    asks: u8,
) -> Record
    ensures { result ≡ request_from service destination to from reference limit asks }
{
    Record {
        service,
        destination: Address(destination),
        to: Point(to),
        from: Point(from),
        length: 0,
        status: request::WAITING,
        count: 0,
        reference,
        limit,
        asks: request::flagged(asks),
    }
}

// Whether the caller has room for an indication.
pub fn room_of(n: u8) -> bool
    ensures { result ≡ room_of n }
{
    n != 0
}

// An answer of submit.
#[tactic(auto, using(crate::proofs::handover::Standing::core_steps), unfolding(crate::specs::Handover::flat_accepted, state::specs::Told::accepted_by))]
pub fn accepted(n: Numbers, a: Result<Accepted, Refusal>) -> FlatAccepted
    ensures { (s : State) → result ≡ flat_accepted n (accepted_by s a) }
{
    match a {
        Ok(Accepted { state, place }) => FlatAccepted {
            refused: 0,
            place,
            core: numbers::numbers_of(state.core, state.memory.kept),
        },
        Err(r) => FlatAccepted {
            refused: r.number(),
            place: 0,
            core: n,
        },
    }
}

// An answer of collect.
#[tactic(auto, using(crate::proofs::handover::Standing::core_steps), unfolding(choice::specs::Choice::pick, request::specs::Record::flag_octet, crate::specs::Handover::flat_collected, state::specs::Told::handed_back_by, state::specs::Told::untold))]
pub fn collected(n: Numbers, a: Result<HandedBack, Refusal>) -> FlatCollected
    ensures { (s : State) → result ≡ flat_collected n (handed_back_by s a) }
{
    match a {
        Ok(
            HandedBack {
                state,
                place,
                entry,
            },
        ) => FlatCollected {
            refused: 0,
            place,
            service: entry.service,
            destination: entry.destination.0,
            to: entry.to.0,
            from: entry.from.0,
            length: entry.length,
            status: entry.status,
            count: entry.count,
            limit: entry.limit,
            asks: request::flag(entry.asks),
            reference: entry.reference,
            core: numbers::numbers_of(state.core, state.memory.kept),
        },
        Err(r) => FlatCollected {
            refused: r.number(),
            place: 0,
            service: 0,
            destination: 0,
            to: frame::NONE,
            from: frame::NONE,
            length: 0,
            status: request::WAITING,
            count: 0,
            limit: 0,
            asks: 0,
            reference: 0,
            core: n,
        },
    }
}

// An answer of reset.
#[tactic(auto, using(crate::proofs::handover::Standing::core_steps), unfolding(crate::specs::Handover::flat_renewed, state::specs::Told::renewed_by))]
pub fn renewed(n: Numbers, a: Result<State, Refusal>) -> FlatRenewed
    ensures { (s : State) → result ≡ flat_renewed n (renewed_by s a) }
{
    match a {
        Ok(s) => FlatRenewed {
            refused: 0,
            core: numbers::numbers_of(s.core, s.memory.kept),
        },
        Err(r) => FlatRenewed {
            refused: r.number(),
            core: n,
        },
    }
}

// The numbers of the blank state, which a refused start leaves and no call accepts.
fn blank() -> Numbers
    ensures { result ≡ numbers_of blank.core blank.memory.kept }
{
    Numbers {
        settings: FlatSettings {
            tset: 0,
            tqui: 0,
            mintsdr: 0,
            maxtsdr: 0,
            ttd: 0,
            ttr: 0,
            retries: 0,
            tsdi: 0,
        },
        acceptance: 0,
        before: 0,
        ts: 0,
        ps: 0,
        stranger: state::NOBODY,
        phase: 0,
        served: 0,
        sendings: 0,
        sdn: 0,
        begun: 0,
        highplaces: 0,
        highfirst: 0,
        highconfirmed: 0,
        highunconfirmed: 0,
        lowplaces: 0,
        lowfirst: 0,
        lowconfirmed: 0,
        lowunconfirmed: 0,
        source: state::NOBODY,
        bit: 0,
        length: 0,
    }
}

// An answer of start.
pub fn started(a: Result<State, Refusal>) -> FlatRenewed
    ensures { result ≡ flat_started (renewed_by blank a) }
{
    renewed(blank(), a)
}

// An answer of frame, sent or slot.
#[tactic(auto, using(crate::proofs::handover::Standing::core_steps), unfolding(crate::specs::Handover::flat_answer, state::specs::Told::heard_by))]
#[inline(always)]
pub fn answer(n: Numbers, a: Result<Heard, Refusal>) -> FlatAnswer
    ensures { (c : Core) (k : Kept) → result ≡ flat_answer n (heard_by c k a) }
{
    match a {
        Ok(a) => FlatAnswer {
            refused: 0,
            wait: a.wait.0,
            length: a.length,
            indication: numbers::indication(a.indication),
            core: numbers::numbers_of(a.core, a.kept),
        },
        Err(r) => FlatAnswer {
            refused: r.number(),
            wait: 0,
            length: 0,
            indication: numbers::indication(None),
            core: n,
        },
    }
}
