// What the types of special events mean.
ghost use Rattle.std.specs.Prelude.{◌≡◌};
ghost use Rattle.aedat.specs.Specials.{meaning_of};

// The edge of an input where its level rises, and where it falls: its channel, and 1 where it rises.
const RISE_0: Option<(u32, u32)> = Some((0, 1));

const FALL_0: Option<(u32, u32)> = Some((0, 0));

const RISE_1: Option<(u32, u32)> = Some((1, 1));

const FALL_1: Option<(u32, u32)> = Some((1, 0));

const RISE_2: Option<(u32, u32)> = Some((2, 1));

const FALL_2: Option<(u32, u32)> = Some((2, 0));

const RISE_3: Option<(u32, u32)> = Some((3, 1));

const FALL_3: Option<(u32, u32)> = Some((3, 0));

// The types that 001 defines, in order: where a type is an edge of an input, that edge. It is a static, since a constant of this type is made anew for
// each event.
static EDGES: [Option<(u32, u32)>; 18] = [
    None, None, RISE_0, FALL_0, None, None, RISE_1, FALL_1, None, RISE_2, FALL_2, None, RISE_3,
    FALL_3, None, None, None, None,
];

// The edge that a type is. The others are special events of their own, types that the table does not have among them.
#[tactic(auto, using(crate::proofs::Edges::in_table, crate::proofs::Edges::past_table))]
pub(crate) fn edge_of(code: u32) -> Option<(u32, u32)>
    ensures { result ≡ meaning_of code }
{
    if code < 18 {
        return EDGES[code as usize];
    }
    None
}
