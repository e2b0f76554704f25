// Modules put in and taken out: the weights of their columns and one table record. For each column of the module one walk down from its top row to
// the next occupied cell below it, or the bottom edge; no other cell is touched.
#![tactic(auto)]

ghost use Rattle.std.specs.Prelude.{◌≡◌};
ghost use Rattle.rules.specs.Surface.{record_of, free_record, with_record, fresh};
ghost use Rattle.modules.specs.Walk.{Sized};
ghost use Rattle.table.specs.Record.{kind_byte};
ghost use Rattle.meaning.specs.Change.{Placing, Taking};

use rules::Rect;
use table::Record;

// The weights of a surface, one for each of its cells, lent for writing.
#[derive(Drop)]
struct Grid<'a> {
    w: usize,
    h: usize,
    weights: &'a mut [i16],
    ghost sized: { Sized w h weights.now },
}

impl Grid<'_> {
    ghost use Rattle.std.specs.Prelude.{◌≡◌, ℕ, ◌+◌, ◌*◌, ◌≤◌, ◌<◌, length};
    ghost use Rattle.rules.specs.Surface.{number};
    ghost use Rattle.meaning.specs.Change.{On};
    ghost use Rattle.modules.specs.Walk.{Shallow, Filled, Recounted, run_above, ColumnAdded, ColumnRemoved, Added, Removed};
    ghost use Rattle.modules.specs.Grid.{Kept};

    // "cell (x, y) is number y·W + x"
    fn number(&self, c: usize, r: usize) -> usize
        requires { (c < self.now.w) × (r < self.now.h) }
        ensures value { result ≡ r * self.now.w + c }
        ensures inside { result < length self.now.weights.now }
    {
        r * self.w + c
    }

    // The n cells of column c from row y get the weight v.
    fn fill(&mut self, c: usize, y: usize, n: usize, v: i16)
        requires { (c < self.old.w) × (y + n ≤ self.old.h) }
        ensures kept { Kept self.old self.new }
        ensures filled { Filled self.old.w c y n v self.old.weights.now self.new.weights.now }
    {
        for r in y..y + n {
            self.weights[self.number(c, r)] = v;
        }
    }

    // The empty cells of column c from row a down to the next occupied one are counted on from k: they are not incremented.
    fn recount(&mut self, c: usize, a: usize, k: usize)
        requires { (c < self.old.w) × (a ≤ self.old.h) × (k ≤ a) }
        ensures kept { Kept self.old self.new }
        ensures recounted { Recounted self.old.w self.old.h c a k self.old.weights.now self.new.weights.now }
    {
        let mut n = k;
        for r in a..self.h {
            let i = self.number(c, r);
            if cells::is_taken(self.weights[i]) {
                return;
            }
            n += 1;
            self.weights[i] = cells::counted(n);
        }
    }

    // The empty cells that end right above row r of column c.
    fn run_above(&self, c: usize, r: usize) -> usize
        requires { (c < self.now.w) × (r ≤ self.now.h) }
        ensures { result ≡ run_above self.now.w self.now.weights.now c r }
    {
        if r == 0 {
            return 0;
        }
        cells::count_of(self.weights[self.number(c, r - 1)])
    }

    // "the k-th empty cell below it becomes k": the count starts anew under the module.
    fn add_column(&mut self, c: usize, y: usize, n: usize, v: usize)
        requires in_column { (c < self.old.w) × (y + n ≤ self.old.h) }
        requires tall { 1 ≤ n }
        requires numbered { (1 ≤ v) × (v ≤ 32767) }
        ensures kept { Kept self.old self.new }
        ensures added { ColumnAdded self.old.w self.old.h c y n v self.old.weights.now self.new.weights.now }
    {
        self.fill(c, y, n, cells::occupied_by(v));
        self.recount(c, y + n, 0);
    }

    // "On removal the run below continues the count from above." The module's cells are marked empty first, so that one walk counts them and those below.
    fn remove_column(&mut self, c: usize, y: usize, n: usize)
        requires in_column { (c < self.old.w) × (y + n ≤ self.old.h) }
        requires shallow { run_above self.old.w self.old.weights.now c y ≤ y }
        ensures kept { Kept self.old self.new }
        ensures removed { ColumnRemoved self.old.w self.old.h c y n self.old.weights.now self.new.weights.now }
    {
        let k = self.run_above(c, y);
        self.fill(c, y, n, 1);
        self.recount(c, y, k);
    }

    // The weights with the module m more, in whichever slot. (Its loop and that of remove stay two: one that takes the step as a closure would have to
    // say in its contract what these say in their invariants.)
    fn add(&mut self, m: Rect)
        requires { On self.old.w self.old.h m }
        ensures kept { Kept self.old self.new }
        ensures added { (i : ℕ) → Added self.old.w self.old.h m (number i m) self.old.weights.now self.new.weights.now }
    {
        for c in m.x..m.x + m.w {
            self.add_column(c, m.y, m.h, m.x + m.w - c);
        }
    }

    // The weights with that module gone.
    fn remove(&mut self, m: Rect)
        requires shallow { Shallow self.old.w m.y self.old.weights.now }
        requires on { On self.old.w self.old.h m }
        ensures kept { Kept self.old self.new }
        ensures removed { Removed self.old.w self.old.h m self.old.weights.now self.new.weights.now }
    {
        for c in m.x..m.x + m.w {
            self.remove_column(c, m.y, m.h);
        }
    }
}

// The module or block of this record is put into slot i, which is free.
pub fn put_in(w: usize, h: usize, s: &mut [i16], t: &mut [u8], i: usize, r: Record)
    requires { Placing w h s.old t.old i r.id_low r.id_high r.rect (kind_byte r.kind) }
    ensures t_after { t.new ≡ with_record t.old i (record_of r.id_low r.id_high r.rect (kind_byte r.kind)) }
    ensures s_after { s.new ≡ fresh w h t.new }
{
    let mut grid = Grid { w, h, weights: s };
    grid.add(r.rect);
    table::put_record(t, i, r.id_low, r.id_high, r.rect, r.kind.byte());
}

// The module of slot i is taken out.
pub fn take_out(w: usize, h: usize, s: &mut [i16], t: &mut [u8], i: usize)
    requires { Taking w h s.old t.old i }
    ensures t_after { t.new ≡ with_record t.old i free_record }
    ensures s_after { s.new ≡ fresh w h t.new }
{
    let mut grid = Grid { w, h, weights: s };
    grid.remove(table::rect_at(t, i));
    table::put_free(t, i);
}
