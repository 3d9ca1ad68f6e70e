// What is to be coloured.
ghost use Rattle.std.specs.Prelude.{◌≤◌};

use lines::bounded::Bounded;

// Lines, and a count of colours for them. It need not suffice.
#[derive(Clone, Copy)]
pub struct Task<'a> {
    pub bounded: Bounded<'a>,
    pub count: u8,
    ghost low: { count ≤ 64 },
}
