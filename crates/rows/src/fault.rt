// Refusals, and the answers of readers and writers.
ghost use Rattle.std.specs.Prelude.{◌≡◌};
ghost use Rattle.rows.specs.Fault.{number_of, reading_numbers, writing_numbers};

// Why an input is refused: one case for each number of the table, in its order. 7 was the bit of a slave camera, and is never used again.
#[derive(Clone, Copy, Debug, PartialEq, Eq)]
pub enum Fault {
    // The input is longer than 1,073,741,824 bytes.
    TooLong = 1,
    // Rows or bytes do not fit the lent buffer.
    NoRoom = 2,
    // A word of a reserved type.
    Reserved = 3,
    // The input ends inside a word, group, event, packet or header.
    Cut = 4,
    // The time goes back, is negative or passes the limit.
    BadTime = 5,
    // A coordinate outside the picture, or a polarity over 1.
    Outside = 6,
    // A word inside a group does not continue it.
    Stray = 8,
    // A bad text header, or a bad type or size after one.
    BadHeader = 9,
    // A bad packet.
    BadPacket = 10,
    // The camera's clock was reset.
    ClockReset = 11,
    // A bad row, or one that the format cannot write.
    BadRow = 12,
    // The length of a list of rows.
    BadList = 13,
    // The picture size that the caller asks for.
    BadPicture = 14,
}

// Why a reader stopped: the refusal, the rows that were finished before it, and its place, a byte of the input.
#[derive(Clone, Copy, Debug, PartialEq, Eq)]
pub struct ReadError {
    pub fault: Fault,
    pub rows: usize,
    pub place: usize,
}

// Why a writer wrote nothing: the refusal, and the index of the first bad row.
#[derive(Clone, Copy, Debug, PartialEq, Eq)]
pub struct WriteError {
    pub fault: Fault,
    pub row: usize,
}

// A reader's answer as three numbers, as the C interface has it: refusal 0 and place 0 where it finished.
#[repr(C)]
#[derive(Clone, Copy, Debug, PartialEq, Eq)]
pub struct ReadingNumbers {
    pub refusal: u64,
    pub rows: u64,
    pub place: u64,
}

// A writer's answer as two numbers, as the C interface has it: refusal 0 and the words written, or the refusal and the row's index.
#[repr(C)]
#[derive(Clone, Copy, Debug, PartialEq, Eq)]
pub struct WritingNumbers {
    pub refusal: u64,
    pub count: u64,
}

// The number of a refusal.
impl From<Fault> for u64 {
    ghost from_gives = { λ fault number. number ≡ number_of fault };

    fn from(fault: Fault) -> u64 {
        fault as u64
    }
}

// What a reader answers as numbers: the count of its rows, or why it stopped.
impl From<Result<usize, ReadError>> for ReadingNumbers {
    ghost from_gives = { λ reading numbers. numbers ≡ reading_numbers reading };

    fn from(reading: Result<usize, ReadError>) -> ReadingNumbers {
        match reading {
            Ok(rows) => ReadingNumbers {
                refusal: 0,
                rows: rows as u64,
                place: 0,
            },
            Err(ReadError { fault, rows, place }) => ReadingNumbers {
                refusal: u64::from(fault),
                rows: rows as u64,
                place: place as u64,
            },
        }
    }
}

// What a writer answers as numbers: the count of its words, or why it wrote none.
impl From<Result<usize, WriteError>> for WritingNumbers {
    ghost from_gives = { λ writing numbers. numbers ≡ writing_numbers writing };

    fn from(writing: Result<usize, WriteError>) -> WritingNumbers {
        match writing {
            Ok(count) => WritingNumbers {
                refusal: 0,
                count: count as u64,
            },
            Err(WriteError { fault, row }) => WritingNumbers {
                refusal: u64::from(fault),
                count: row as u64,
            },
        }
    }
}
