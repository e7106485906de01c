// A line's text, appended piece by piece.
ghost use Rattle.std.specs.Prelude.{List, [], ◌∷◌, ◌++◌, ◌≡◌, ◌+◌, ◌≤◌, ◌<◌, length};
ghost use Rattle.lines.specs.Printed.{digit_of, numeral, row, refused_line, first_line, corner_line, full_line};
ghost use Rattle.lines.specs.Lines.{Shows, Short, blank, appended, Grown};

use crate::Line;
use big_endian::bits;

const BLANK: u8 = b' ';

const LINE_FEED: u8 = b'\n';

// A digit, as it is printed.
fn digit(d: usize) -> u8
    requires { d < 16 }
    ensures { result ≡ digit_of d }
{
    let digits = b"0123456789ABCDEF";
    digits[d]
}

impl Line {
    // A line with nothing on it.
    pub(crate) fn empty() -> Self
        ensures { result ≡ blank }
    {
        Self {
            bytes: [0; 64],
            len: 0,
        }
    }

    // One byte more.
    #[tactic(auto, unfolding(crate::specs::Lines::appended))]
    fn push(&mut self, b: u8)
        requires { self.old.len < 64 }
        ensures { self.new ≡ appended self.old (b ∷ []) }
    {
        self.bytes[self.len] = b;
        self.len += 1;
    }

    // A text.
    fn append(&mut self, s: &[u8])
        requires { self.old.len + length s.now ≤ 64 }
        ensures { self.new ≡ appended self.old s.now }
    {
        for b in s {
            self.push(*b);
        }
    }

    // The numeral of n, with at least so many digits.
    // By hand: the contract of `write!` leaves open whether it gives an `Err`, and a line (`line_at`) never fails.
    fn number(&mut self, base: usize, least: usize, n: usize)
        requires { (2 ≤ base) × (base ≤ 16) × (self.old.len + length (numeral base least n) ≤ 64) }
        ensures { self.new ≡ appended self.old (numeral base least n) }
    {
        if n < base && least <= 1 {
            self.push(digit(n));
        } else {
            self.number(base, least.saturating_sub(1), n / base);
            self.push(digit(n % base));
        }
    }

    // A numeral, and a byte behind it.
    fn field(&mut self, base: usize, least: usize, n: usize, end: u8)
        requires { Short base least n × (self.old.len + 21 ≤ 64) }
        ensures { Grown 21 self.old (numeral base least n ++ (end ∷ [])) self.new }
    {
        self.number(base, least, n);
        self.push(end);
    }

    // Three numerals on a line of their own.
    fn three(base: usize, least: usize, a: usize, b: usize, c: usize) -> Self
        requires { Short base least a × Short base least b × Short base least c }
        ensures { Shows (row (numeral base least a ∷ numeral base least b ∷ numeral base least c ∷ [])) result }
    {
        let mut line = Self::empty();
        line.field(base, least, a, BLANK);
        line.field(base, least, b, BLANK);
        line.field(base, least, c, LINE_FEED);
        line
    }

    // A refusal's only line.
    pub(crate) fn refused(n: u32) -> Self
        ensures { Shows (refused_line n) result }
    {
        let mut line = Self::empty();
        line.append(b"refused ");
        line.field(10, 1, n as usize, LINE_FEED);
        line
    }

    // The first line of a list.
    #[tactic(auto, unfolding(crate::specs::Printed::first_line))]
    pub(crate) fn first(w: usize, h: usize, count: usize) -> Self
        ensures { Shows (first_line w h count) result }
    {
        Self::three(10, 1, w, h, count)
    }

    // A corner's line.
    pub(crate) fn corner(x: f32, y: f32, strength: f32) -> Self
        ensures { Shows (corner_line (x ∷ y ∷ strength ∷ [])) result }
    {
        Self::three(
            16,
            8,
            bits(x) as usize,
            bits(y) as usize,
            bits(strength) as usize,
        )
    }

    // The last line of a list that is full.
    pub(crate) fn full() -> Self
        ensures { Shows full_line result }
    {
        let mut line = Self::empty();
        line.append(b"list full\n");
        line
    }
}
