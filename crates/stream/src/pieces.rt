// A piece of the input: its whole records in turn, and the bytes that are left over.
ghost use Rattle.std.specs.Prelude.{◌≡◌, ◌*◌, ◌/◌, ◌%◌, ◌≤◌, length};
ghost use Rattle.stream.specs.Size.{columns_of};
ghost use Rattle.stream.specs.Records.{kept, records, carried};
ghost use Rattle.stream.specs.Promise.{Ready, ServedAll, Requests, Together};
ghost use Rattle.stream.specs.Memory.{kept_in, AllServedIn};

use super::memory::Memory;
use super::records::{CLEAR, is_clear};
use super::size::Size;
use requests::run::run_on;

// Requests of the library as one block, on the surface at the start of the room.
fn run_block(size: Size, room: &mut [i16], table: &mut [u8], q: &[u8], a: &mut [u8])
    requires ready { Ready size.columns size.rows room.old table.old }
    requires q_len { (length q.now ≡ 8 * records q.now) × (records q.now ≤ 512) × (length a.old ≡ length q.now) × Requests q.now (records q.now) }
    ensures { ServedAll q.now (kept size.columns size.rows room.old table.old) size.columns size.rows room.new table.new a.new }
{
    run_on(
        size.columns,
        size.rows,
        &mut room[..size.cells()],
        table,
        q,
        a,
    );
}

impl Memory {
    // How many records, from the first on, are served together: one by itself, or the requests up to the next clear.
    fn together(&self, q: &[u8]) -> usize
        requires { (length q.now ≡ 8 * records q.now) × (1 ≤ records q.now) × (records q.now ≤ 512) }
        ensures { (1 ≤ result) × (result ≤ records q.now) × Together (columns_of self.now.size) q.now result }
    {
        if self.is_apart(q) {
            return 1;
        }
        let n = q.len() / 8;
        (1..n).find(|&m| q[8 * m] == CLEAR).unwrap_or(n)
    }

    // Records that are served together.
    fn serve_together(&mut self, q: &[u8], a: &mut [u8])
        requires { (length q.now ≡ 8 * records q.now) × (1 ≤ records q.now) × (records q.now ≤ 512) × (length a.old ≡ length q.now) × Together (columns_of self.old.size) q.now (records q.now) }
        ensures { AllServedIn q.now (kept_in self.old) self.new a.new }
    {
        match self.size {
            Some(size) if !is_clear(q) => run_block(size, &mut self.weights, &mut self.table, q, a),
            _ => self.serve_apart(q, a),
        }
    }

    // The records of a piece in turn, each answered in its own part of the answers; requests between two clears go to the library in blocks.
    pub fn serve(&mut self, q: &[u8], a: &mut [u8])
        requires { (length q.now ≡ 8 * records q.now) × (records q.now ≤ 512) × (length a.old ≡ length q.now) }
        ensures { AllServedIn q.now (kept_in self.old) self.new a.new }
    {
        let n = q.len() / 8;
        let mut k = 0;
        // By hand, because each turn goes on by as many as it has served.
        while k < n {
            let at = 8 * k;
            let m = self.together(&q[at..]);
            let end = at + 8 * m;
            self.serve_together(&q[at..end], &mut a[at..end]);
            k += m;
        }
    }
}

// How many of n bytes are whole records.
pub fn whole(n: usize) -> usize
    ensures { (result ≡ 8 * (n / 8)) × (result ≤ n) }
{
    n / 8 * 8
}

// "where bytes remain after the last whole record": those of the first n go to the start. The result is how many.
pub fn carry(q: &mut [u8], n: usize) -> usize
    requires { n ≤ length q.old }
    ensures { (result ≡ n % 8) × (q.new ≡ carried n q.old) }
{
    q.copy_within(whole(n)..n, 0);
    n % 8
}
