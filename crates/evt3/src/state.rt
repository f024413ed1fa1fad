// What a reader knows between words, and what each kind of word does with it.
ghost use Rattle.std.specs.Prelude.{◌≡◌, ◌<◌, ◌%◌, ◌/◌};
ghost use Rattle.evt3.specs.State.{with_high, with_y, with_base, moved};
ghost use Rattle.evt3.specs.Words.{drop_to, is_wrap, wraps_at, goes_back, bad_high, with_low};

// Which parts of the state are known. Flags beside their values: as Options of structs, which was tried and proved, single pixels take a tenth
// longer to read; and with an Option for each number the camera and the polarity would stand beside another's.
#[derive(Clone, Copy, Debug, Default, PartialEq, Eq)]
pub struct Known {
    pub high: bool,
    pub time: bool,
    pub y: bool,
    pub base: bool,
}

// What a reader knows between words. The order leaves no gaps between the fields: gaps would be copied with the state.
#[derive(Clone, Copy, Debug, Default, PartialEq, Eq)]
pub struct State {
    // Microseconds.
    pub time: u64,
    pub known: Known,
    // How often the clock wrapped, and the high part of the time.
    pub wraps: u32,
    pub high: u16,
    // The line.
    pub y: u16,
    // The column that the next vector begins at.
    pub base: u16,
    // Which of two cameras sees the line. It is known where the line is.
    pub camera: u8,
    // The polarity of the next vector.
    pub polarity: u8,
}

impl State {
    // By how much a high part drops below the known one.
    #[tactic(auto, unfolding(crate::specs::Words::drop_to))]
    fn drop_to(self, high: u16) -> u16
        ensures { result ≡ drop_to self high }
    {
        if self.known.high {
            return self.high.saturating_sub(high);
        }
        0
    }

    // Whether a high part is a wrap of the clock.
    #[tactic(auto, unfolding(crate::specs::Words::is_wrap))]
    fn is_wrap(self, high: u16) -> bool
        ensures { result ≡ is_wrap self high }
    {
        2048 <= self.drop_to(high)
    }

    // The wrap count that a high part leads to.
    #[tactic(auto, unfolding(crate::specs::Words::wraps_at))]
    fn wraps_at(self, high: u16) -> u64
        ensures { result ≡ wraps_at self high }
    {
        let wraps = self.wraps as u64;
        if self.is_wrap(high) {
            return wraps + 1;
        }
        wraps
    }

    // Whether a high part takes the clock back.
    #[tactic(auto, unfolding(crate::specs::Words::goes_back))]
    fn goes_back(self, high: u16) -> bool
        ensures { result ≡ goes_back self high }
    {
        (0 < self.drop_to(high)) & !self.is_wrap(high)
    }

    // Whether EVT_TIME_HIGH is refused: the clock goes back, or would come to the wrap count 1,024.
    #[tactic(auto, unfolding(crate::specs::Words::bad_high))]
    pub(crate) fn bad_high(self, w: u64) -> bool
        ensures { result ≡ bad_high self (w % 4096) }
    {
        let high = (w % 4096) as u16;
        self.goes_back(high) | (1024 <= self.wraps_at(high))
    }

    // EVT_TIME_HIGH: the high part, and not the time.
    pub(crate) fn time_high(mut self, w: u64) -> State
        requires { wraps_at self (w % 4096) < 1024 }
        ensures { result ≡ with_high self (w % 4096) (wraps_at self (w % 4096)) }
    {
        let high = (w % 4096) as u16;
        self.wraps = self.wraps_at(high) as u32;
        self.high = high;
        self.known.high = true;
        self
    }

    // EVT_TIME_LOW: the time, if a high part is known.
    #[tactic(auto, unfolding(crate::specs::Words::with_low))]
    pub(crate) fn time_low(mut self, w: u64) -> State
        ensures { result ≡ with_low self (w % 4096) }
    {
        if self.known.high {
            self.time = self.wraps as u64 * 16777216 + self.high as u64 * 4096 + w % 4096;
            self.known.time = true;
        }
        self
    }

    // EVT_ADDR_Y: the line and its camera.
    pub(crate) fn addr_y(mut self, w: u64) -> State
        ensures { result ≡ with_y self (w % 2048) (w / 2048 % 2) }
    {
        self.y = (w % 2048) as u16;
        self.camera = (w / 2048 % 2) as u8;
        self.known.y = true;
        self
    }

    // With another base.
    fn with_base(mut self, base: u16, polarity: u8) -> State
        ensures { result ≡ with_base self base polarity }
    {
        self.base = base;
        self.polarity = polarity;
        self.known.base = true;
        self
    }

    // VECT_BASE_X: the base and its polarity, no event.
    pub(crate) fn vect_base_x(self, w: u64) -> State
        ensures { result ≡ with_base self (w % 2048) (w / 2048 % 2) }
    {
        self.with_base((w % 2048) as u16, (w / 2048 % 2) as u8)
    }

    // After n columns: a known base moves on, and stops at 2,048.
    #[tactic(auto, unfolding(crate::specs::State::moved))]
    fn moved(self, n: u16) -> State
        ensures { result ≡ moved n self }
    {
        if self.known.base {
            let x = self.base as u32 + n as u32;
            if x < 2048 {
                return self.with_base(x as u16, self.polarity);
            }
            return self.with_base(2048, self.polarity);
        }
        self
    }

    // VECT_12, whatever its bits are.
    pub(crate) fn vect_12(self, _w: u64) -> State
        ensures { result ≡ moved 12 self }
    {
        self.moved(12)
    }

    // VECT_8, whatever its bits are.
    pub(crate) fn vect_8(self, _w: u64) -> State
        ensures { result ≡ moved 8 self }
    {
        self.moved(8)
    }
}
