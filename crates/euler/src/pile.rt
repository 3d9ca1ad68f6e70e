// Lines that are laid one after another in a room that is long enough.
ghost use Rattle.std.specs.Prelude.{◌≡◌, ℕ, ◌+◌, ◌<◌, ◌≤◌, [], ◌∷◌, ◌++◌, length, take};

use lines::line::Line;

// A pile is the first `count` places of the room.
#[derive(Drop)]
pub(crate) struct Pile<'a> {
    room: &'a mut [Line],
    count: usize,
    ghost within: { count ≤ length room.now },
}

impl<'a> Pile<'a> {
    // A pile of no lines.
    pub(crate) fn new(room: &'a mut [Line]) -> Pile<'a>
        ensures empty { result.count ≡ 0 }
        ensures room { result.room.now ≡ room.old }
    {
        Pile { room, count: 0 }
    }

    // Lays one line more.
    pub(crate) fn push(&mut self, line: Line)
        requires { self.old.count < length self.old.room.now }
        ensures lines { take self.new.count self.new.room.now ≡ take self.old.count self.old.room.now ++ line ∷ [] }
        ensures count { self.new.count ≡ self.old.count + 1 }
        ensures room { length self.new.room.now ≡ length self.old.room.now }
    {
        self.room[self.count] = line;
        self.count += 1;
    }

    // The lines of the pile.
    pub(crate) fn into_lines(self) -> &'a mut [Line]
        ensures { result.now ≡ take self.entry.count self.entry.room.now }
    {
        &mut self.room[..self.count]
    }
}
