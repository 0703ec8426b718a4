// How far a run is.
ghost use Rattle.std.specs.Prelude.{◌≡◌, ◌<◌};
ghost use Rattle.calls.specs.Place.{after_answer};

// The place of the next answer, how many are to come, and how many calls may still begin.
// (How deep methods may still go goes beside it: it falls at each call, by which they are seen to end, and nothing of it comes back.)
#[derive(Clone, Copy)]
pub struct Progress {
    pub at: usize,
    pub left: usize,
    pub calls: usize,
}

impl Progress {
    // Past the answer that ends at `end`.
    pub fn pass(&mut self, end: usize)
        requires { 0 < self.old.left }
        ensures { self.new ≡ after_answer self.old end }
    {
        self.at = end;
        self.left -= 1;
    }
}
