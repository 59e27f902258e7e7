//! Printed thousandths.

ghost use Rattle.std.specs.Prelude.{◌≡◌, ◌+◌, ◌*◌, ◌/◌, ◌%◌, ◌^◌, ◌<◌, ◌≤◌, List, ℕ, [], ◌∷◌, ◌++◌, length, drop};
ghost use Rattle.std.specs.Fmt.{decimal};
ghost use Rattle.xt_number.specs.declared.digits.TheConstants.{ROOM};
ghost use Rattle.xt_number.specs.Thousandths.{size_text, thousandths, three_digits};

use itoa::{Buffer, write_digits};
use std::marker::Model;

/// The bytes that any printed number has room in: a sign, 40 digits, a point and three digits.
const ROOM: usize = 45;

/// A printed number. It is at the end of its room, since it is written from the last byte to the first.
#[derive(Drop)]
pub struct Digits {
    buffer: [u8; ROOM],
    start: usize,
}

impl Model for Digits {
    ghost Value = { List ℕ };

    ghost view = { λ d. drop d.start d.buffer };

    ghost invariant = { λ d. d.start ≤ ROOM };
}

impl Digits {
    /// The text.
    pub fn bytes(&self) -> &[u8]
        ensures { result.now ≡ self.now }
    {
        let (_, text) = self.buffer.split_at(self.start);
        text
    }

    fn new() -> Digits
        ensures { result ≡ [] }
    {
        Digits {
            buffer: [0; ROOM],
            start: ROOM,
        }
    }

    /// Puts a byte in front.
    fn put(&mut self, byte: u8)
        requires { length self.old < ROOM }
        ensures { self.new ≡ byte ∷ self.old }
    {
        self.start -= 1;
        self.buffer[self.start] = byte;
    }

    /// Puts a text in front.
    fn put_text(&mut self, text: &[u8])
        requires { length text.now + length self.old ≤ ROOM }
        ensures { self.new ≡ text.now ++ self.old }
    {
        let end = self.start;
        self.start -= text.len();
        self.buffer[self.start..end].copy_from_slice(text);
    }

    /// Puts a number of 64 bits in front.
    fn put_number(&mut self, number: u64)
        requires { length self.old + 20 ≤ ROOM }
        ensures { self.new ≡ decimal number ++ self.old }
    {
        self.start = write_digits(number, &mut self.buffer, self.start);
    }
}

/// The digit of a number below ten.
fn digit(value: u32) -> u8
    requires { value < 10 }
    ensures { result ∷ [] ≡ decimal value }
{
    b'0' + value as u8
}

/// A point and this many thousandths after it.
fn fraction(thousandths: u32) -> Digits
    requires { thousandths < 1000 }
    ensures value { result ≡ 46 ∷ three_digits thousandths }
    ensures length { length result ≡ 4 }
{
    let mut digits = Digits::new();
    digits.put(digit(thousandths % 10));
    digits.put(digit(thousandths / 10 % 10));
    digits.put(digit(thousandths / 100));
    digits.put(b'.');
    digits
}

/// This many thousandths of 64 bits.
fn short_size(size: u64) -> Digits
    ensures value { result ≡ size_text size }
    ensures short { length result ≤ 24 }
{
    let mut digits = fraction((size % 1000) as u32);
    digits.put_number(size / 1000);
    digits
}

/// This many thousandths of any size.
fn long_size(size: u128) -> Digits
    ensures value { result ≡ size_text size }
    ensures short { length result ≤ 44 }
{
    let mut buffer = Buffer::new();
    let mut digits = fraction((size % 1000) as u32);
    digits.put_text(buffer.format(size / 1000).as_bytes());
    digits
}

/// A count of thousandths, with three digits after the point.
#[tactic(auto, unfolding(crate::specs::Thousandths::thousandths))]
fn print_thousandths(count: i128) -> Digits
    ensures { result ≡ thousandths count }
{
    let size = count.unsigned_abs();
    let mut digits = match u64::try_from(size) {
        Ok(size) => short_size(size),
        Err(_) => long_size(size),
    };
    if count < 0 {
        digits.put(b'-');
    }
    digits
}

/// A time in femtoseconds, printed in picoseconds.
pub fn time_text(fs: i128) -> Digits
    ensures { result ≡ thousandths fs }
{
    print_thousandths(fs)
}

/// A capacitance in attofarads, printed in femtofarads.
pub fn cap_text(af: i128) -> Digits
    ensures { result ≡ thousandths af }
{
    print_thousandths(af)
}
