// Typed events: a row of a kind as an event of that kind, an IMU's readings as singles.
ghost use Rattle.std.specs.Prelude.{◌≡◌, true};
ghost use Rattle.rows.specs.Rules.{good_as};
ghost use Rattle.events.specs.Event.{values_of, counts_event, singles_event, event_as, event_of, readings_of, refused_numbers, row_numbers, event_numbers};

use crate::readings::{acceleration, rotation, single};
use rows::{Fault, Kind, Row, get, good};

// An event of each kind, with its time in microseconds. Accelerations are in g, rotations in degrees a second. The patterns are the bits of an
// IMU's seven singles as they stand in the row: a NaN's payload is kept there alone.
#[derive(Clone, Copy, Debug, PartialEq)]
pub enum Event {
    Pixel {
        time: u64,
        x: u32,
        y: u32,
        polarity: u32,
        camera: u32,
    },
    Trigger {
        time: u64,
        channel: u32,
        edge: u32,
    },
    ImuCounts {
        time: u64,
        ax: f32,
        ay: f32,
        az: f32,
        rx: f32,
        ry: f32,
        rz: f32,
    },
    ImuSingles {
        time: u64,
        ax: f32,
        ay: f32,
        az: f32,
        rx: f32,
        ry: f32,
        rz: f32,
        temperature: f32,
        patterns: [u32; 7],
    },
    Special {
        time: u64,
        code: u32,
        content: u32,
    },
}

// An event as numbers, for callers in other languages: refusal 0, the row's kind, time and seven data numbers, and the
// readings, +0 where there are none. Refused: the refusal, and zeros.
#[repr(C)]
#[derive(Clone, Copy, Debug, PartialEq)]
pub struct EventNumbers {
    pub refusal: u64,
    pub kind: u64,
    pub time: u64,
    pub values: [u32; 7],
    pub readings: [f32; 7],
}

// The seven data numbers of a row.
fn values(row: Row) -> [u32; 7]
    ensures { result ≡ values_of row }
{
    [row.a, row.b, row.c, row.d, row.e, row.f, row.g]
}

#[tactic(auto, using(rows::proofs::GoodRows::counts_below), unfolding(crate::specs::Event::counts_event))]
fn counts_event(row: Row) -> Event
    requires { good_as Kind.ImuCounts row ≡ true }
    ensures { result ≡ counts_event row }
{
    Event::ImuCounts {
        time: row.time(),
        ax: acceleration(row.a as u16),
        ay: acceleration(row.b as u16),
        az: acceleration(row.c as u16),
        rx: rotation(row.d as u16),
        ry: rotation(row.e as u16),
        rz: rotation(row.f as u16),
    }
}

#[tactic(auto, unfolding(crate::specs::Event::singles_event))]
fn singles_event(row: Row) -> Event
    ensures { result ≡ singles_event row }
{
    Event::ImuSingles {
        time: row.time(),
        ax: single(row.a),
        ay: single(row.b),
        az: single(row.c),
        rx: single(row.d),
        ry: single(row.e),
        rz: single(row.f),
        temperature: single(row.g),
        patterns: values(row),
    }
}

// The event of a row that keeps the rules of a kind.
#[tactic(auto, unfolding(crate::specs::Event::event_as))]
fn event_as(kind: Kind, row: Row) -> Result<Event, Fault>
    requires { good_as kind row ≡ true }
    ensures { result ≡ event_as kind row }
{
    match kind {
        Kind::Pixel => Ok(Event::Pixel {
            time: row.time(),
            x: row.a,
            y: row.b,
            polarity: row.c,
            camera: row.d,
        }),
        Kind::Trigger => Ok(Event::Trigger {
            time: row.time(),
            channel: row.a,
            edge: row.b,
        }),
        Kind::ImuCounts => Ok(counts_event(row)),
        Kind::ImuSingles => Ok(singles_event(row)),
        Kind::Special => Ok(Event::Special {
            time: row.time(),
            code: row.a,
            content: row.b,
        }),
        Kind::Other => Err(Fault::BadRow),
    }
}

// The event of a row; a row that is not good is refused 12.
impl TryFrom<Row> for Event {
    type Error = Fault;

    ghost try_from_gives = { λ row event. event ≡ event_of row };

    #[tactic(auto, using(rows::proofs::GoodRows::good_by_kind), unfolding(crate::specs::Event::event_of))]
    fn try_from(row: Row) -> Result<Event, Fault> {
        if good(row) {
            return event_as(Kind::from(row.kind), row);
        }
        Err(Fault::BadRow)
    }
}

impl Event {
    // The seven readings, +0 where the kind has none.
    pub fn readings(self) -> [f32; 7]
        ensures { result ≡ readings_of self }
    {
        match self {
            Event::ImuCounts {
                ax,
                ay,
                az,
                rx,
                ry,
                rz,
                ..
            } => [ax, ay, az, rx, ry, rz, 0.0],
            Event::ImuSingles {
                ax,
                ay,
                az,
                rx,
                ry,
                rz,
                temperature,
                ..
            } => [ax, ay, az, rx, ry, rz, temperature],
            Event::Pixel { .. } | Event::Trigger { .. } | Event::Special { .. } => [0.0; 7],
        }
    }
}

// The numbers of a refusal.
impl From<Fault> for EventNumbers {
    ghost from_gives = { λ fault numbers. numbers ≡ refused_numbers fault };

    fn from(fault: Fault) -> EventNumbers {
        EventNumbers {
            refusal: u64::from(fault),
            kind: 0,
            time: 0,
            values: [0; 7],
            readings: [0.0; 7],
        }
    }
}

// The numbers of a row's event, or of its refusal.
impl From<Row> for EventNumbers {
    ghost from_gives = { λ row numbers. numbers ≡ row_numbers row };

    #[tactic(auto, unfolding(crate::specs::Event::row_numbers))]
    fn from(row: Row) -> EventNumbers {
        match Event::try_from(row) {
            Ok(event) => EventNumbers {
                refusal: 0,
                kind: u64::from(row.kind),
                time: row.time(),
                values: values(row),
                readings: event.readings(),
            },
            Err(fault) => EventNumbers::from(fault),
        }
    }
}

// The event of a row of ten numbers, as numbers; of any other length it is refused 13.
#[tactic(auto, unfolding(crate::specs::Event::event_numbers))]
pub fn event_numbers(numbers: &[u32]) -> EventNumbers
    ensures { result ≡ event_numbers numbers.now }
{
    match get(numbers, 0) {
        Some(row) if numbers.len() == 10 => EventNumbers::from(row),
        _ => EventNumbers::from(Fault::BadList),
    }
}
