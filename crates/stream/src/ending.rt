// At the end of the input: the list.
ghost use Rattle.std.specs.Prelude.{◌≡◌, length};
ghost use Rattle.stream.specs.Promise.{ListedBy};
ghost use Rattle.stream.specs.Memory.{kept_in};

use super::memory::Memory;
use cells::standing::Surface;
use listing::list::list_standing;
use listing::row::Counts;

impl Memory {
    // The list of the surface that is kept, as records from the start of the room, and its counts. The room takes the longest list, so 7 is never given.
    pub fn list_kept(&self, room: &mut [u8]) -> Counts
        requires { length room.old ≡ 32768 }
        ensures { ListedBy (kept_in self.now) room.old result.entries result.corners room.new }
    {
        let Some(size) = self.size else {
            return Counts {
                entries: 0,
                corners: 0,
            };
        };
        let surface = Surface {
            w: size.columns,
            h: size.rows,
            weights: &self.weights[..size.cells()],
            table: &self.table,
        };
        list_standing(&surface, room).unwrap()
    }
}
