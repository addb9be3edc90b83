// The reader of an accepted frame: it refers to the caller's octets and shows the frame's data as that part of them.
// Each function over it is thin. Assumes nothing.
#![tactic(auto)]

ghost use Rattle.std.specs.Prelude.{◌≡◌};
ghost use Rattle.frame.specs.Reading.{shown as reading_shown};
ghost use Rattle.view.specs.View.{part_of};

use frame::Part;

// The frame's octets, and where its data lie in them: the part that reading gave.
#[derive(Clone, Copy)]
pub struct Reader<'a> {
    pub octets: &'a [u8],
    pub part: Part,
}

// The reader of an accepted frame: the string that was read, and the part that reading gave.
pub fn accepted(octets: &[u8], p: Part) -> Reader<'_>
    ensures { (result.octets ≡ octets.entry) × (part_of result ≡ p) }
{
    Reader { octets, part: p }
}

// The data, as that part of the caller's octets.
#[tactic(auto, unfolding(frame::specs::Reading::shown))]
pub fn shown(r: Reader<'_>) -> &[u8]
    ensures { result.now ≡ reading_shown r.entry.octets.now (part_of r.entry) }
{
    read::part(r.octets, r.part.start, r.part.count)
}

// The data of an accepted frame, through its reader.
pub fn data_of(octets: &[u8], p: Part) -> &[u8]
    ensures { result.now ≡ reading_shown octets.now p }
{
    shown(accepted(octets, p))
}
