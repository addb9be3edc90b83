// FC, the control octet of a frame: what it asks or replies, and which octets are listed. The frames that carry it are
// left to the crates above. Assumes nothing.
#![tactic(auto, unfolding(choice::specs::Choice::pick, choice::specs::Choice::same))]

ghost use Rattle.std.specs.Prelude.{◌≡◌, ◌<◌, false};
ghost use Rattle.choice.specs.Choice.{pick, same};
ghost use Rattle.control.specs.Control.{service_of, code_number, code_of, type_of};
ghost use Rattle.control.specs.Control.{control_of};
ghost use Rattle.control.specs.Halves.{replied as halves_replied, requested as halves_requested};
ghost use Rattle.control.specs.Halves.{numbered as halves_numbered};
ghost use Rattle.control.specs.Control.{fc as control_fc, counted as control_counted};
ghost use Rattle.control.specs.Control.{lawful as control_lawful, listed as control_listed, sdn as control_sdn};

// What a request asks for, by its number in FC.
#[derive(Clone, Copy, Debug, PartialEq, Eq)]
pub enum Service {
    SdaLow = 3,
    SdnLow = 4,
    SdaHigh = 5,
    SdnHigh = 6,
    Status = 9,
    SrdLow = 12,
    SrdHigh = 13,
    Ident = 14,
    Lsap = 15,
}

// What a reply says, by its number in FC.
#[derive(Clone, Copy, Debug, PartialEq, Eq)]
pub enum Code {
    Ok = 0,
    Ue = 1,
    Rr = 2,
    Rs = 3,
    Dl = 8,
    Nr = 9,
    Dh = 10,
    Rdl = 12,
    Rdh = 13,
}

// What kind of station replies, by its number in FC.
#[derive(Clone, Copy, Debug, PartialEq, Eq)]
pub enum Kind {
    Slave = 0,
    NotReady = 1,
    Ready = 2,
    InRing = 3,
}

// FC: a request with its frame count bit and that bit's validity, or a reply.
#[derive(Clone, Copy, Debug, PartialEq, Eq)]
pub enum Control {
    Request {
        service: Service,
        fcb: bool,
        fcv: bool,
    },
    Reply {
        kind: Kind,
        code: Code,
    },
}

// The service of a number; of one that names none, any.
// Kept: this table, `code_of` and `type_of` are of three types, and a trait for them is no plainer than the tables.
#[tactic(auto, unfolding(choice::specs::Choice::pick, choice::specs::Choice::same, crate::specs::Control::service_of))]
fn service_of(n: u8) -> Service
    ensures { result ≡ service_of n }
{
    match n {
        3 => Service::SdaLow,
        4 => Service::SdnLow,
        5 => Service::SdaHigh,
        6 => Service::SdnHigh,
        9 => Service::Status,
        12 => Service::SrdLow,
        13 => Service::SrdHigh,
        14 => Service::Ident,
        _ => Service::Lsap,
    }
}

pub fn code_number(c: Code) -> u8
    ensures value { result ≡ code_number c }
    ensures upper_bound { result < 16 }
{
    c as u8
}

// The reply code of a number; of one that names none, any.
#[tactic(auto, unfolding(choice::specs::Choice::pick, choice::specs::Choice::same, crate::specs::Control::code_of))]
fn code_of(n: u8) -> Code
    ensures { result ≡ code_of n }
{
    match n {
        0 => Code::Ok,
        1 => Code::Ue,
        2 => Code::Rr,
        3 => Code::Rs,
        8 => Code::Dl,
        9 => Code::Nr,
        10 => Code::Dh,
        12 => Code::Rdl,
        _ => Code::Rdh,
    }
}

// The station type of a number below 4.
#[tactic(auto, unfolding(choice::specs::Choice::pick, choice::specs::Choice::same, crate::specs::Control::type_of))]
fn type_of(n: u8) -> Kind
    ensures { result ≡ type_of n }
{
    match n {
        0 => Kind::Slave,
        1 => Kind::NotReady,
        2 => Kind::Ready,
        _ => Kind::InRing,
    }
}

// The FC octet of a control.
#[tactic(auto, unfolding(choice::specs::Choice::pick, crate::specs::Control::fc, crate::specs::Control::bit))]
pub fn fc(c: Control) -> u8
    ensures value { result ≡ control_fc c }
    ensures upper_bound { result < 128 }
{
    match c {
        Control::Request { service, fcb, fcv } => {
            64 + 32 * u8::from(fcb) + 16 * u8::from(fcv) + service as u8
        }
        Control::Reply { kind, code } => 16 * kind as u8 + code as u8,
    }
}

// The control that an FC octet is read as.
#[tactic(auto, unfolding(choice::specs::Choice::pick, choice::specs::Choice::same, crate::specs::Control::control_of))]
pub fn control_of(n: u8) -> Control
    ensures { result ≡ control_of n }
{
    if n / 64 % 2 == 1 {
        Control::Request {
            service: service_of(n % 16),
            fcb: n / 32 % 2 == 1,
            fcv: n / 16 % 2 == 1,
        }
    } else {
        Control::Reply {
            kind: type_of(n / 16 % 4),
            code: code_of(n % 16),
        }
    }
}

// SDA and SRD are counted by FCB and FCV, and nothing else.
fn counted(s: Service) -> bool
    ensures { result ≡ control_counted s }
{
    matches!(
        s,
        Service::SdaLow | Service::SdaHigh | Service::SrdLow | Service::SrdHigh
    )
}

// FCB and FCV are 0 but in a counted request.
#[tactic(auto, unfolding(choice::specs::Choice::pick, choice::specs::Choice::said, crate::specs::Control::lawful))]
pub fn lawful(c: Control) -> bool
    ensures { result ≡ control_lawful c }
{
    match c {
        Control::Request { service, fcb, fcv } => counted(service) || (!fcb && !fcv),
        Control::Reply { .. } => true,
    }
}

// Whether an octet is the FC of a control, and that control is lawful.
pub fn named(c: Control, n: u8) -> bool
    ensures { result ≡ pick (same (control_fc c) n) (control_lawful c) false }
{
    fc(c) == n && lawful(c)
}

// Whether a number is a reply code's.
#[tactic(auto, unfolding(choice::specs::Choice::pick, choice::specs::Choice::same, crate::specs::Halves::replied))]
fn replied(x: u8) -> bool
    ensures { result ≡ halves_replied x }
{
    matches!(x, 0..=3 | 8..=10 | 12 | 13)
}

// Whether a number is a service's.
#[tactic(auto, unfolding(choice::specs::Choice::pick, choice::specs::Choice::same, crate::specs::Halves::requested))]
fn requested(x: u8) -> bool
    ensures { result ≡ halves_requested x }
{
    matches!(x, 3..=6 | 9 | 12..=15)
}

// Whether a number is a counted service's.
#[tactic(auto, unfolding(choice::specs::Choice::pick, choice::specs::Choice::same, crate::specs::Halves::numbered))]
fn numbered(x: u8) -> bool
    ensures { result ≡ halves_numbered x }
{
    matches!(x, 3 | 5 | 12 | 13)
}

// Whether an octet is an FC that the standard lists, by its halves.
#[tactic(auto, unfolding(choice::specs::Choice::pick, choice::specs::Choice::less, crate::specs::Halves::by_halves), using(crate::proofs::Halves::halves))]
pub fn listed(n: u8) -> bool
    ensures { result ≡ control_listed n }
{
    match n {
        0..=63 => replied(n % 16),
        64..=79 => requested(n % 16),
        80..=127 => numbered(n % 16),
        _ => false,
    }
}

// Whether an FC octet is an SDN, low or high.
#[tactic(auto, unfolding(choice::specs::Choice::pick, choice::specs::Choice::same, crate::specs::Control::sdn))]
pub fn sdn(n: u8) -> bool
    ensures { result ≡ control_sdn n }
{
    matches!(n, 68 | 70)
}
