// The fields of a frame and its checksum FCS; the definitions of the whole frame table but FC are in specs/. Reading
// and writing are left to the crates above. Assumes nothing.
#![tactic(auto)]

ghost use Rattle.std.specs.Prelude.{◌≡◌, ◌≤◌};
ghost use Rattle.frame.specs.Access.{access_of, point_of};
ghost use Rattle.frame.specs.Format.{fcs as format_fcs, misdirected as format_misdirected};

use control::Control;

// The start octets, and the end.
pub const SD1: u8 = 0x10;

pub const SD2: u8 = 0x68;

pub const SD3: u8 = 0xA2;

pub const SD4: u8 = 0xDC;

pub const SC: u8 = 0xE5;

pub const ED: u8 = 0x16;

// A station address: 0..126, and 127 for all.
#[derive(Clone, Copy, Debug, PartialEq, Eq)]
pub struct Address(pub u8);

// An access point number.
#[derive(Clone, Copy, Debug, PartialEq, Eq)]
pub struct Point(pub u8);

// The number that stands for no access point, where one number stands for a point or for none.
pub const NONE: u8 = 255;

// The fields of a frame that has a control octet, but for its data.
#[derive(Clone, Copy, Debug, PartialEq, Eq)]
pub struct Head {
    pub destination: Address,
    pub to: Option<Point>,
    pub source: Address,
    pub from: Option<Point>,
    pub control: Control,
}

// The fields of a frame of any form, but for its data.
#[derive(Clone, Copy, Debug, PartialEq, Eq)]
pub enum Fields {
    Token {
        destination: Address,
        source: Address,
    },
    Short,
    Frame(Head),
}

// Where a frame's data lie in the string that was read.
#[derive(Clone, Copy, Debug, PartialEq, Eq)]
pub struct Part {
    pub start: usize,
    pub count: usize,
}

// Whether a frame to an address is for all, and no SDN.
#[tactic(auto, unfolding(choice::specs::Choice::pick, choice::specs::Choice::same, choice::specs::Choice::said, crate::specs::Format::misdirected))]
pub fn misdirected(address: u8, control: u8) -> bool
    ensures { result ≡ format_misdirected address control }
{
    address == 127 && !control::sdn(control)
}

// The checksum of a frame's body.
#[tactic(auto, unfolding(crate::specs::Format::fcs, crate::specs::Format::sum), using(crate::proofs::Sum::fcs_steps))]
pub fn fcs(body: &[u8]) -> u8
    ensures { result ≡ format_fcs body.now }
{
    let mut sum: u8 = 0;
    for octet in body {
        sum = sum.wrapping_add(*octet);
    }
    sum
}

// The access point of a number, and the number of an access point.
#[tactic(auto, unfolding(choice::specs::Choice::pick, choice::specs::Choice::same, crate::specs::Access::access_of))]
pub fn access_of(p: Point) -> Option<Point>
    ensures { result ≡ access_of p.0 }
{
    if p.0 == NONE { None } else { Some(p) }
}

#[tactic(auto, unfolding(crate::specs::Access::point_of))]
pub fn point_of(a: Option<Point>) -> u8
    ensures { result ≡ point_of a }
{
    a.map_or(NONE, |p| p.0)
}
