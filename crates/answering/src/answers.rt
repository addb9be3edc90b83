// The answers that touch no memory: none, an SDN's indication and FDL status; and what the services ask. Assumes
// nothing.
ghost use Rattle.std.specs.Prelude.{◌≡◌, ◌≤◌, length};
ghost use Rattle.state.specs.Answering.{Readable, status_events, sdn_events};
ghost use Rattle.state.specs.Answering.{asks as answering_asks};
ghost use Rattle.state.specs.Told.{telling, Says};

use super::{news, reply};
use clock::BitTime;
use control::{Code, Service};
use frame::Head;
use state::{Asks, Given, Indication, Kept, Responder, Spoken};

// What a request's service asks.
#[tactic(auto, unfolding(state::specs::Answering::asks))]
pub fn asks(s: Service) -> Asks
    ensures { result ≡ answering_asks s }
{
    match s {
        Service::SdaLow | Service::SdaHigh => Asks::Sda,
        Service::SrdLow | Service::SrdHigh => Asks::Srd,
        Service::SdnLow | Service::SdnHigh => Asks::Sdn,
        Service::Status => Asks::Status,
        Service::Ident | Service::Lsap => Asks::Never,
    }
}

// Nothing is replied.
pub fn silent(kept: Kept, indication: Option<Indication>) -> Spoken
    ensures { result ≡ record { kept = kept; length = 0; wait = record { 0 = 0 }; indication = indication } }
{
    Spoken {
        kept,
        length: 0,
        wait: BitTime(0),
        indication,
    }
}

// Answers FDL status.
#[tactic(auto, unfolding(choice::specs::Choice::pick, choice::specs::Choice::said, state::specs::Answering::status_events))]
pub fn answer_status(responder: Responder, k: Kept, h: Head, out: &mut [u8]) -> Spoken
    requires { (responder.ts.0 ≤ 126) × ((Readable h) × (255 ≤ length out.old)) }
    ensures { Says k (status_events responder h) out.old result out.new }
{
    if news::reserved(h.to) {
        return silent(k, None);
    }
    Spoken {
        kept: k,
        length: reply::lay_reply(responder, h, Given::Coded(Code::Ok), b"", out),
        wait: responder.wait,
        indication: None,
    }
}

// Indicates an SDN.
#[tactic(auto, unfolding(choice::specs::Choice::pick, choice::specs::Choice::said, state::specs::Answering::sdn_events, state::specs::Answering::shows, state::specs::Told::telling, state::specs::Told::adds, state::specs::Told::untold))]
pub fn answer_sdn(points: &[u8; 64], k: Kept, room: bool, request: Indication) -> Spoken
    ensures { result
        ≡ record {
          kept = k;
          length = 0;
          wait = record { 0 = 0 };
          indication = (telling
              (sdn_events points.now room request.head request.part)).indication;
        } }
{
    let shows = room && news::active(points, request.head.to);
    silent(k, shows.then_some(request))
}
