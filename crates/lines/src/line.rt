// Lines, and the two sides on which their ends stand.
ghost use Rattle.std.specs.Prelude.{◌≡◌};
ghost use Rattle.lines.specs.Lines.{other, end_of};

// The two sides of a line. Ends of different sides are different, also where they have the same number.
#[derive(Clone, Copy, PartialEq, Eq, Debug)]
pub enum Side {
    Left,
    Right,
}

impl Side {
    // The other side.
    pub fn opposite(self) -> Side
        ensures { result ≡ other self }
    {
        match self {
            Side::Left => Side::Right,
            Side::Right => Side::Left,
        }
    }
}

// A line joins a left end and a right end, and has a colour. Several lines may join the same two ends.
#[derive(Clone, Copy, PartialEq, Eq, Debug)]
pub struct Line {
    pub left: u16,
    pub right: u16,
    pub colour: u8,
}

impl Line {
    // The end of the line on a side.
    pub fn end(self, side: Side) -> u16
        ensures { result ≡ end_of side self }
    {
        match side {
            Side::Left => self.left,
            Side::Right => self.right,
        }
    }
}
