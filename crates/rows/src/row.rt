// Rows, and rows in slices that the caller lends.
ghost use Rattle.std.specs.Prelude.{◌≡◌};
ghost use Rattle.rows.specs.Row.{time_of, room_of, row_at, PutRow, timed, camera_row, pixel_row, trigger_row, counts_row, singles_row, special_row};

// A row: its kind, its time mod 2^32 and div 2^32, and seven numbers of the kind's own, unused ones 0.
#[derive(Clone, Copy, Debug, PartialEq, Eq)]
pub struct Row {
    pub kind: u32,
    pub low: u32,
    pub high: u32,
    pub a: u32,
    pub b: u32,
    pub c: u32,
    pub d: u32,
    pub e: u32,
    pub f: u32,
    pub g: u32,
}

// A row of a kind at a time, with its seven numbers.
#[tactic(auto, unfolding(crate::specs::Row::timed))]
fn timed(kind: u32, time: u64, a: u32, b: u32, c: u32, d: u32, e: u32, f: u32, g: u32) -> Row
    ensures { result ≡ timed kind time a b c d e f g }
{
    Row {
        kind,
        low: (time % 4294967296) as u32,
        high: (time / 4294967296) as u32,
        a,
        b,
        c,
        d,
        e,
        f,
        g,
    }
}

impl Row {
    // Kind 1: a pixel at x, y of one of two cameras; polarity 1 is brighter.
    pub fn camera_pixel(time: u64, x: u32, y: u32, polarity: u32, camera: u32) -> Row
        ensures { result ≡ camera_row time x y polarity camera }
    {
        timed(1, time, x, y, polarity, camera, 0, 0, 0)
    }

    // A pixel of camera 0.
    pub fn pixel(time: u64, x: u32, y: u32, polarity: u32) -> Row
        ensures { result ≡ pixel_row time x y polarity }
    {
        Row::camera_pixel(time, x, y, polarity, 0)
    }

    // Kind 2: a trigger on a channel; edge 1 is rising.
    pub fn trigger(time: u64, channel: u32, edge: u32) -> Row
        ensures { result ≡ trigger_row time channel edge }
    {
        timed(2, time, channel, edge, 0, 0, 0, 0, 0)
    }

    // Kind 3: the counts of an IMU, acceleration X, Y, Z and rotation X, Y, Z.
    pub fn imu_counts(time: u64, ax: u32, ay: u32, az: u32, rx: u32, ry: u32, rz: u32) -> Row
        ensures { result ≡ counts_row time ax ay az rx ry rz }
    {
        timed(3, time, ax, ay, az, rx, ry, rz, 0)
    }

    // Kind 4: the bits of an IMU's seven singles, as kind 3 and then the temperature.
    pub fn imu_singles(
        time: u64,
        ax: u32,
        ay: u32,
        az: u32,
        rx: u32,
        ry: u32,
        rz: u32,
        temperature: u32,
    ) -> Row
        ensures { result ≡ singles_row time ax ay az rx ry rz temperature }
    {
        timed(4, time, ax, ay, az, rx, ry, rz, temperature)
    }

    // Kind 6: a special event of a type with 24 bits of data.
    pub fn special(time: u64, code: u32, content: u32) -> Row
        ensures { result ≡ special_row time code content }
    {
        timed(6, time, code, content, 0, 0, 0, 0, 0)
    }

    // The time in microseconds.
    #[tactic(auto, unfolding(crate::specs::Row::time_of))]
    pub fn time(self) -> u64
        ensures { result ≡ time_of self }
    {
        self.high as u64 * 4294967296 + self.low as u64
    }
}

// How many rows a slice has room for.
pub fn room(rows: &[u32]) -> usize
    ensures { result ≡ room_of rows.now }
{
    rows.len() / 10
}

// Row i of a list, where the list has one.
#[tactic(auto, unfolding(crate::specs::Row::row_from))]
pub fn get(rows: &[u32], i: usize) -> Option<Row>
    ensures { result ≡ row_at rows.now i }
{
    if i < room(rows) {
        let at = i * 10;
        return Some(Row {
            kind: rows[at],
            low: rows[at + 1],
            high: rows[at + 2],
            a: rows[at + 3],
            b: rows[at + 4],
            c: rows[at + 5],
            d: rows[at + 6],
            e: rows[at + 7],
            f: rows[at + 8],
            g: rows[at + 9],
        });
    }
    None
}

// Writes row i of a list and answers true; where there is no room for it, touches nothing and answers false. Ten stores: a copy of an
// array of the numbers would wait until they are in it.
pub fn put(rows: &mut [u32], i: usize, row: Row) -> bool
    ensures { PutRow rows.old i row rows.new result }
{
    if i < room(rows) {
        let at = i * 10;
        rows[at] = row.kind;
        rows[at + 1] = row.low;
        rows[at + 2] = row.high;
        rows[at + 3] = row.a;
        rows[at + 4] = row.b;
        rows[at + 5] = row.c;
        rows[at + 6] = row.d;
        rows[at + 7] = row.e;
        rows[at + 8] = row.f;
        rows[at + 9] = row.g;
        return true;
    }
    false
}
