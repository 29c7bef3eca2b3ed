//! A picture of a run as a value. Each form of it, as text or in SVG, is written from it alone.

ghost use Rattle.std.specs.Prelude.{◌≡◌};
ghost use Rattle.chart.specs.Pictures.{sign_byte, strikes};

use std::marker::Model;

/// What a stroke is a part of.
#[derive(Clone, Copy, PartialEq, Eq)]
pub enum Sign {
    /// The horizontal line of a row.
    Flat,
    /// The horizontal line of an AMO.
    Double,
    /// The horizontal line of a load, from a pending store that it reads.
    Reads,
    /// A pending store, downwards.
    Down,
    /// Where a store's line turns down.
    Bend,
    /// Where a landing's line turns to memory.
    Lands,
    /// The head of an AMO's arrow at its text.
    From,
    /// The head of a load's arrow at its text.
    Reader,
    /// The head of an arrow at memory.
    To,
    /// Where a load's line joins the store that it reads.
    Joins,
    /// The end of the line of a store that has no lane.
    Cut,
    /// A store that is still pending, below the last row.
    Open,
}

/// A sign in `count` cells of a line, from one on, and the hart whose line it is. The last stroke of a
/// cell is the one that is seen in the text.
#[derive(Clone, Copy, PartialEq, Eq)]
pub struct Stroke {
    pub sign: Sign,
    pub at: usize,
    pub count: usize,
    pub hart: u32,
}

/// How a text is written: the numbers of rows are quiet, what rows say is loud, and the heads of columns are
/// bold.
#[derive(Clone, Copy, PartialEq, Eq)]
pub enum Weight {
    Quiet,
    Loud,
    Bold,
}

/// A text of a line, from a cell on.
#[derive(Drop)]
pub struct Mark {
    pub at: usize,
    pub weight: Weight,
    pub text: String,
}

impl Model for Mark {
    ghost use Rattle.std.specs.String.{string_bytes};
    ghost use Rattle.chart.specs.Pictures.{MarkOf};

    ghost Value = { MarkOf };

    ghost view = { λ m. record { at = m.at; weight = m.weight; text = string_bytes m.text } };
}

/// A line of a picture. Cells count from 0; the text form shows a text over the strokes of its cells.
#[derive(Drop)]
pub struct Line {
    pub marks: Vec<Mark>,
    pub strokes: Vec<Stroke>,
}

impl Model for Line {
    ghost use Rattle.chart.specs.Pictures.{LineOf};

    ghost Value = { LineOf };

    ghost view = { λ l. record { marks = l.marks.items; strokes = l.strokes.items } };
}

/// A picture of a run: the lines above it, the heads of its columns, its lines, and those below it. A
/// line has `width` cells.
#[derive(Drop)]
pub struct Picture {
    pub head: Vec<String>,
    pub heads: Line,
    pub body: Vec<Line>,
    pub foot: Vec<String>,
    pub width: usize,
}

impl Model for Picture {
    ghost use Rattle.std.specs.Prelude.{map};
    ghost use Rattle.std.specs.String.{string_bytes};
    ghost use Rattle.chart.specs.Pictures.{PictureOf};

    ghost Value = { PictureOf };

    ghost view = { λ p. record {
      head = map string_bytes p.head.items;
      heads = p.heads;
      body = p.body.items;
      foot = map string_bytes p.foot.items;
      width = p.width;
    } };
}

impl Sign {
    /// The sign as a byte of the text form.
    pub fn byte(self) -> u8
        ensures { result ≡ sign_byte self }
    {
        match self {
            Sign::Flat => b'-',
            Sign::Double => b'=',
            Sign::Reads => b'-',
            Sign::Down => b'|',
            Sign::Bend => b'.',
            Sign::Lands => b'\'',
            Sign::From => b'<',
            Sign::Reader => b'<',
            Sign::To => b'>',
            Sign::Joins => b'o',
            Sign::Cut => b'~',
            Sign::Open => b'v',
        }
    }
}

impl Stroke {
    /// Whether the cell is one of the `count` from `at` on.
    pub fn strikes(self, cell: usize) -> bool
        ensures { result ≡ strikes self cell }
    {
        self.at <= cell && cell - self.at < self.count
    }
}
