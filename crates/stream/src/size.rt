// The size of a surface.
ghost use Rattle.rules.specs.Surface.{Sides};

// W and H, each in 1..64.
#[derive(Clone, Copy, Debug, PartialEq, Eq)]
pub struct Size {
    pub columns: usize,
    pub rows: usize,
    ghost sides: { Sides columns rows },
}

impl Size {
    ghost use Rattle.std.specs.Prelude.{◌≡◌, ◌*◌, ◌≤◌};

    // How many cells a surface of this size has.
    pub(crate) fn cells(self) -> usize
        ensures { (result ≡ self.columns * self.rows) × (result ≤ 4096) }
    {
        self.columns * self.rows
    }
}
