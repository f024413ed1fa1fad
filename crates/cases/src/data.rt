// What the columns of a case stand for: a list of numbers. In a decimal column each number is one of them, and `;` fills the row of ten with
// zeros. In any other column they are bytes: a hexadecimal number is its bytes, the low one first; text stands in quotes, where \n, \r,
// \t, \0, \" and \\ are what they are in C. `*n` repeats what stands before it, so that it is there n times: a number, a text, or
// what parentheses enclose. What does not fit a list is left out, and the count goes on; what cannot be read fits nowhere.
ghost use Rattle.std.specs.Prelude.{◌<◌};

// The numbers of the longest list. A list is an array: a `Vec` would grow with a count of times, and the heap is one more thing to trust.
pub(crate) const ROOM: usize = 8192;

// More than any list holds.
const NOWHERE: usize = 1099511627776;

// Where a byte stands: outside quotes, within them, or there after a backslash.
#[derive(Clone, Copy)]
enum Place {
    Outside,
    Quoted,
    Escaped,
}

// A column under way, and the list that its numbers go to.
#[derive(Drop)]
struct Run<'a> {
    list: &'a mut [u32],
    decimal: bool,
    place: Place,
    // After a star. A quoted text may stand between it and its count, so that it is no case of `Place`.
    counting: bool,
    // The digits of a number so far, and its value.
    digits: usize,
    value: u64,
    // Where the column's first number stands in the list, where the parenthesis's, where that of the last item, and where the next will.
    start: usize,
    open: usize,
    from: usize,
    to: usize,
}

// The part of a list from a place on, of so many numbers or as many as there are.
fn part(list: &mut [u32], from: usize, count: usize) -> &mut [u32] {
    let from = from.min(list.len());
    let to = from.saturating_add(count).min(list.len());
    &mut list[from..to]
}

fn put(list: &mut [u32], at: usize, n: u32) {
    if let Some(place) = list.get_mut(at) {
        *place = n;
    }
}

// Puts the numbers between two places again behind them, over and over, so many in all.
fn put_again(list: &mut [u32], from: usize, to: usize, count: usize) {
    if let Some((before, after)) = list.split_at_mut_checked(to) {
        let item = before.iter().skip(from).cycle();
        for (place, n) in after.iter_mut().take(count).zip(item) {
            *place = *n;
        }
    }
}

fn escape(byte: u8) -> u8 {
    match byte {
        b'n' => b'\n',
        b'r' => b'\r',
        b't' => b'\t',
        b'0' => b'\0',
        _ => byte,
    }
}

impl Run<'_> {
    // A digit more of the number under way. Leading digits of a number that is far too long are lost.
    fn digit(&mut self, digit: u64)
        requires { digit < 16 }
    {
        self.digits = self.digits.wrapping_add(1);
        self.value = if self.decimal | self.counting {
            self.value % 1000000000000000000 * 10 + digit
        } else {
            self.value % 1152921504606846976 * 16 + digit
        };
    }

    // So many numbers are put, and no number is under way.
    fn pass(&mut self, count: usize) {
        self.counting = false;
        self.digits = 0;
        self.value = 0;
        self.to = self.to.wrapping_add(count);
    }

    fn put_byte(&mut self, byte: u8) {
        put(self.list, self.to, u32::from(byte));
        self.pass(1);
    }

    // A count of times has ended: the last item comes again, so that it is there so many times.
    fn repeat(&mut self) {
        let size = self.to.wrapping_sub(self.from).min(16384);
        let times = (self.value as usize).wrapping_sub(1).min(16384);
        let count = size * times;
        put_again(self.list, self.from, self.to, count);
        self.pass(count);
    }

    // A number has ended, if one was under way: a decimal one is below 2^32, another one has whole bytes, at most eight.
    fn end_number(&mut self) {
        if self.digits == 0 {
            return;
        }
        if self.counting {
            self.repeat();
            return;
        }
        self.from = self.to;
        if self.decimal {
            let fits = (self.digits <= 10) & (self.value <= 4294967295);
            put(self.list, self.to, (self.value % 4294967296) as u32);
            self.pass(if fits { 1 } else { NOWHERE });
            return;
        }
        let count = self.digits / 2;
        let fits = (self.digits <= 16) & (self.digits % 2 == 0);
        let places = part(self.list, self.to, count);
        for (place, byte) in places.iter_mut().zip(self.value.to_le_bytes()) {
            *place = u32::from(byte);
        }
        self.pass(if fits { count } else { NOWHERE });
    }

    // A sign between numbers.
    fn sign(&mut self, byte: u8) {
        match byte {
            b' ' => {}
            b';' => {
                let count = (10 - self.to.wrapping_sub(self.start) % 10) % 10;
                part(self.list, self.to, count).fill(0);
                self.pass(count);
            }
            b'*' => self.counting = true,
            b'(' => self.open = self.to,
            b')' => self.from = self.open,
            b'"' => {
                self.place = Place::Quoted;
                self.from = self.to;
            }
            _ => self.pass(NOWHERE),
        }
    }

    fn unquoted(&mut self, byte: u8) {
        let radix = if self.decimal | self.counting { 10 } else { 16 };
        match char::from(byte).to_digit(radix) {
            Some(digit) => self.digit(u64::from(digit)),
            None => {
                self.end_number();
                self.sign(byte);
            }
        }
    }

    fn byte(&mut self, byte: u8) {
        match (self.place, byte) {
            (Place::Outside, _) => self.unquoted(byte),
            (Place::Quoted, b'\\') => self.place = Place::Escaped,
            (Place::Quoted, b'"') => self.place = Place::Outside,
            (Place::Quoted, _) => self.put_byte(byte),
            (Place::Escaped, _) => {
                self.place = Place::Quoted;
                self.put_byte(escape(byte));
            }
        }
    }
}

// Puts the numbers of a column into a list, from a place on, and answers where they end.
pub(crate) fn units(text: &[u8], from: usize, decimal: bool, list: &mut [u32]) -> usize {
    let mut run = Run {
        list,
        decimal,
        place: Place::Outside,
        counting: false,
        digits: 0,
        value: 0,
        start: from,
        open: from,
        from,
        to: from,
    };
    for byte in text {
        run.byte(*byte);
    }
    run.end_number();
    run.to
}

// The numbers of a list as bytes, the rest of which stay.
pub(crate) fn narrow(list: &[u32], bytes: &mut [u8]) {
    for (byte, n) in bytes.iter_mut().zip(list) {
        *byte = (*n % 256) as u8;
    }
}

// Bytes as the numbers of a list.
pub(crate) fn widen(bytes: &[u8], list: &mut [u32]) {
    for (place, byte) in list.iter_mut().zip(bytes) {
        *place = u32::from(*byte);
    }
}
