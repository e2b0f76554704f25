// What the program keeps between records.
ghost use Rattle.stream.specs.Size.{columns_of, rows_of};
ghost use Rattle.stream.specs.Promise.{Ready};

use super::size::Size;

// The size of the surface, once there is one, and H while there is none: W is 0 then, and H any number; as many weights as the largest surface has, its own from their
// start; and the table.
#[derive(Debug, Drop)]
pub struct Memory {
    pub size: Option<Size>,
    pub rows: usize,
    pub weights: [i16; 4096],
    pub table: [u8; 2048],
    ghost ready: { Ready (columns_of size) (rows_of size rows) weights table },
}

impl Memory {
    ghost use Rattle.std.specs.Prelude.{◌≡◌};
    ghost use Rattle.stream.specs.Records.{first_kept};
    ghost use Rattle.stream.specs.Memory.{kept_in};

    // At the start. "keeps a table of 256 slots": all of them free. "Before the first accepted clear" there is no surface.
    pub fn new() -> Self
        ensures { kept_in result ≡ first_kept }
    {
        Memory {
            size: None,
            rows: 0,
            weights: [0; 4096],
            table: [0; 2048],
        }
    }
}
