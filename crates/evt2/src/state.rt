// What a reader knows between words, and what each kind of word gives and sets.
ghost use Rattle.std.specs.Prelude.{◌≡◌, ℕ, true, Some, None};
ghost use Rattle.words.specs.Fields.{field};
ghost use Rattle.words.specs.Machine.{onto};
ghost use Rattle.words.specs.Written.{GaveAs, StepAs};
ghost use Rattle.evt2.specs.declared.kind.Kind.TheVariants.{Cd};
ghost use Rattle.evt2.specs.State.{pending, origin, with_high, with_group, further};
ghost use Rattle.evt2.specs.Words.{kind_in, is_before, pixel_at, trigger_at, inside_of, step};

use crate::group::{Group, time_at};
use crate::kind::Kind;
use rows::{Fault, Row};
use words::{Picture, Stop, Turn};

// What a reader knows between words: at first no high part, and no group in hand.
#[derive(Clone, Copy, Debug, Default, PartialEq, Eq)]
pub struct State {
    // The IMU reading in hand, if one is.
    pub group: Option<Group>,
    // The high part of the time, once it is known.
    pub high: Option<u32>,
}

impl State {
    // Whether a group is in hand.
    pub(crate) fn is_pending(self) -> bool
        ensures { result ≡ pending self }
    {
        self.group.is_some()
    }

    // Where the group in hand begins, and else the word at a place.
    #[tactic(auto, unfolding(crate::specs::State::origin))]
    pub(crate) fn origin(self, at: usize) -> usize
        ensures { result ≡ origin self at }
    {
        match self.group {
            Some(group) => group.place,
            None => at,
        }
    }

    // The kind of a word: inside a group it is one of its own, whatever its type.
    #[tactic(auto, unfolding(crate::specs::Words::kind_in))]
    fn kind(self, w: u64) -> Kind
        ensures { result ≡ kind_in self w }
    {
        match self.group {
            Some(group) => Kind::Inside(group),
            None => Kind::from(w),
        }
    }

    // Whether a word is a pixel, outside a group.
    #[tactic(auto, unfolding(crate::specs::Words::kind_in, crate::specs::Words::kind_of))]
    fn is_pixel(self, w: u64) -> bool
        ensures { result ≡ true → kind_in self w ≡ Cd }
    {
        self.group.is_none() && w / 268435456 % 16 < 2
    }

    // EVT_TIME_HIGH: the high part.
    fn time_high(&mut self, w: u64)
        ensures { self.new ≡ with_high self.old (field 0 28 w) }
    {
        self.high = Some((w % 268435456) as u32);
    }

    // Reads a word at a place: writes its row, if it has one and there is room, and moves the state, if it sets something.
    pub(crate) fn step(
        &mut self,
        picture: Picture,
        place: usize,
        w: u64,
        rows: &mut [u32],
        n: usize,
    ) -> Result<Turn, Stop>
        ensures { StepAs (step picture self.old place w) self.old n rows.old rows.new result self.new }
    {
        // Asked before the kind, and not for each kind, so that words before the first TIME_HIGH and those after it have a loop each.
        let Some(high) = self.high else {
            return self.unclocked(w, rows, n);
        };
        match self.kind(w) {
            Kind::Cd => {
                let count = cd(high, picture, w, rows, n)?;
                Ok(Turn::Stays(count))
            }
            Kind::TimeHigh => {
                if is_before(w, high) {
                    return Err(Stop::Refused(Fault::BadTime));
                }
                self.time_high(w);
                Ok(Turn::Ticks(n))
            }
            Kind::ExtTrigger => {
                let count = ext_trigger(high, w, rows, n)?;
                Ok(Turn::Stays(count))
            }
            Kind::ImuEvt => {
                self.group = Some(Group::begun(high, place, w));
                Ok(Turn::Moves(n))
            }
            Kind::Others | Kind::Continued => Ok(Turn::Stays(n)),
            Kind::Reserved => Err(Stop::Refused(Fault::Reserved)),
            Kind::Inside(group) => self.inside(group, w, rows, n),
        }
    }

    // A word before the first TIME_HIGH, whatever the picture and its place: none but that one sets anything, and none gives a row.
    fn unclocked(&mut self, w: u64, rows: &mut [u32], n: usize) -> Result<Turn, Stop>
        requires { self.old.high ≡ None }
        ensures { (picture : Picture) (place : ℕ) → StepAs (step picture self.old place w) self.old n rows.old rows.new result self.new }
    {
        // Asked first, since the kinds are told apart by one test after another here, a pixel last.
        if self.is_pixel(w) {
            return Ok(Turn::Stays(n));
        }
        match self.kind(w) {
            Kind::TimeHigh => {
                self.time_high(w);
                Ok(Turn::Ticks(n))
            }
            Kind::Reserved => Err(Stop::Refused(Fault::Reserved)),
            Kind::Inside(group) => self.inside(group, w, rows, n),
            Kind::Cd | Kind::ExtTrigger | Kind::ImuEvt | Kind::Others | Kind::Continued => {
                Ok(Turn::Stays(n))
            }
        }
    }

    // One word more of a group.
    fn inside(&mut self, group: Group, w: u64, rows: &mut [u32], n: usize) -> Result<Turn, Stop>
        ensures { StepAs (onto (inside_of group w) (with_group self.old (further group w))) self.old n rows.old rows.new result self.new }
    {
        let count = group.give(w, rows, n)?;
        self.group = group.further(w);
        Ok(Turn::Moves(count))
    }
}

// Whether EVT_TIME_HIGH is lower than a high part before it.
#[tactic(auto, unfolding(crate::specs::Words::is_before))]
fn is_before(w: u64, high: u32) -> bool
    ensures { result ≡ is_before (field 0 28 w) (Some high) }
{
    w % 268435456 < high as u64
}

// CD_OFF, CD_ON: one pixel, after a high part.
fn cd(high: u32, picture: Picture, w: u64, rows: &mut [u32], n: usize) -> Result<usize, Stop>
    ensures { GaveAs (pixel_at picture w high) n rows.old rows.new result }
{
    let x = (w / 2048 % 2048) as u32;
    let y = (w % 2048) as u32;
    if picture.holds(x, y) {
        let polarity = (w / 268435456 % 2) as u32;
        return words::give(rows, n, Row::pixel(time_at(high, w), x, y, polarity));
    }
    Err(Stop::Refused(Fault::Outside))
}

// EXT_TRIGGER: one trigger, after a high part.
fn ext_trigger(high: u32, w: u64, rows: &mut [u32], n: usize) -> Result<usize, Stop>
    ensures { GaveAs (trigger_at w high) n rows.old rows.new result }
{
    let row = Row::trigger(time_at(high, w), (w / 256 % 32) as u32, (w % 2) as u32);
    words::give(rows, n, row)
}
