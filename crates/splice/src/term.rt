// A term within a room.
ghost use Rattle.std.specs.Prelude.{◌≤◌, length};

// The words of a term, and the room, so many words, that it fits and the next ones are to fit.
#[derive(Clone, Copy)]
pub struct Term<'a> {
    pub words: &'a [u16],
    pub room: usize,
    pub ghost fits: { length words.now ≤ room },
    pub ghost small: { room ≤ 65536 },
}
