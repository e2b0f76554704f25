// A surface that stands, lent for reading: what the list, the choice by rule and the judging of a request are given.
ghost use Rattle.rules.specs.Surface.{Standing};

#[derive(Clone, Copy)]
pub struct Surface<'a> {
    pub w: usize,
    pub h: usize,
    pub weights: &'a [i16],
    pub table: &'a [u8],
    ghost standing: { Standing w h weights.now table.now },
}

impl<'a> Surface<'a> {
    ghost use Rattle.std.specs.Prelude.{◌≡◌, ◌<◌};
    ghost use Rattle.rules.specs.Surface.{cell};

    // The weight of cell (x, y): "cell (x, y) is number y·W + x".
    pub fn weight(&self, x: usize, y: usize) -> i16
        requires x_lt_w { x < self.now.w }
        requires y_lt_h { y < self.now.h }
        ensures { result ≡ cell self.now.w self.now.weights.now x y }
    {
        self.weights[y * self.w + x]
    }
}
