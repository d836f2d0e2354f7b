// The numbers of the lists of an input.
ghost use Rattle.std.specs.Prelude.{◌≡◌, ◌+◌, ◌*◌, ◌<◌, ◌≤◌, get_or};

// The numbers of lists of events: 67 of each, one list behind the other.
#[derive(Clone, Copy)]
pub struct Columns<'a> {
    pub numbers: &'a [u32],
    pub lists: usize,
    // more do not begin in 65,536 bytes
    ghost few: { lists ≤ 9362 },
}

impl<'a> Columns<'a> {
    // Number r of list j.
    pub fn number(&self, j: usize, r: usize) -> u64
        requires { (j < self.now.lists) × (r < 67) }
        ensures { result ≡ get_or self.now.numbers.now (j * 67 + r) 0 }
    {
        self.numbers.get(j * 67 + r).copied().unwrap_or(0) as u64
    }
}
