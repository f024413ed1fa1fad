// The picture that a reader of words is asked for, and what is refused before the first word.
ghost use Rattle.std.specs.Prelude.{◌≡◌, length};
ghost use Rattle.words.specs.Picture.{good_picture, in_picture, admission_of};

use rows::Fault;

// The columns and lines that pixels may lie in.
#[derive(Clone, Copy, Debug, PartialEq, Eq)]
pub struct Picture {
    pub width: u32,
    pub height: u32,
}

impl Picture {
    // Whether a reader of words takes the size: width and height from 1 to 2,048.
    pub fn is_good(self) -> bool
        ensures { result ≡ good_picture self }
    {
        (1..=2048).contains(&self.width) && (1..=2048).contains(&self.height)
    }

    // Whether a pixel lies in the picture.
    #[tactic(auto, unfolding(crate::specs::Picture::in_picture))]
    pub fn holds(self, x: u32, y: u32) -> bool
        ensures { result ≡ in_picture self x y }
    {
        x < self.width && y < self.height
    }
}

// What comes before the first word, at place 0 and without rows: refusal 1 for too long an input, then 14 for a bad picture.
#[tactic(auto, unfolding(crate::specs::Picture::admission_of))]
pub fn admit(bytes: &[u8], picture: Picture) -> Result<(), Fault>
    ensures { result ≡ admission_of (length bytes.now) picture }
{
    if 1073741824 < bytes.len() {
        return Err(Fault::TooLong);
    }
    if !picture.is_good() {
        return Err(Fault::BadPicture);
    }
    Ok(())
}
