// The list: the scanned rows' entries as records, one row behind the other.
ghost use Rattle.std.specs.Prelude.{◌≡◌, map, ℕ, ◌+◌, ◌*◌, ◌≤◌, ◌<◌, length, get_or, ltb};
ghost use Rattle.rules.specs.Surface.{occupied};
ghost use Rattle.rules.specs.Empties.{corners, entries, entry_record, entry_records};
ghost use Rattle.rules.specs.Calls.{room_after};
ghost use Rattle.listing.specs.Listed.{no_entry, entry_rect, Scans, written, Drawn, listing, listing_number, listed_result, listed_room};

use super::entry::Entry;
use super::row::{Counts, row};
use super::scanned::scanned_rows;
use cells::standing::Surface;
use rules::Refusal;

// An entry of row y as its record: "x, y, w, h, the area as two bytes, low first, and two zero bytes."
fn put_entry(place: &mut [u8], y: usize, entry: Entry)
    requires { (length place.old ≡ 8) × Drawn y entry }
    ensures { place.new ≡ entry_record (entry_rect y entry) }
{
    let wide = entry.right + 1 - entry.left;
    let top = y + 1 - usize::from(entry.height);
    let [low, high] = (u16::from(wide) * u16::from(entry.height)).to_le_bytes();
    table::put_eight(
        place,
        [entry.left, top as u8, wide, entry.height, low, high, 0, 0],
    );
}

// The entries of row y as records from `at` on.
fn write_row(y: usize, entries: &[Entry], room: &mut [u8], at: usize)
    requires drawn { (i : ℕ) → i < length entries.now → Drawn y (get_or entries.now i no_entry) }
    requires in_bounds { at + 8 * length entries.now ≤ length room.old }
    ensures { room.new ≡ written at (entry_records (map (entry_rect y) entries.now)) room.old }
{
    for (i, entry) in entries.iter().enumerate() {
        let o = at + 8 * i;
        put_entry(&mut room[o..o + 8], y, *entry);
    }
}

// The whole list as records from the start of the room, the rows one behind the other. "later bytes stay." A row that is not scanned has no entry and
// no corner.
fn write_list(surface: &Surface, scans: &[bool], room: &mut [u8]) -> Counts
    requires scans { Scans surface.now.h surface.now.table.now scans.now }
    requires in_bounds { 8 * length (entries (occupied surface.now.table.now) surface.now.w surface.now.h) ≤ length room.old }
    ensures room_after { room.new ≡ room_after surface.now.w surface.now.h surface.now.table.now room.old }
    ensures entries_value { result.entries ≡ length (entries (occupied surface.now.table.now) surface.now.w surface.now.h) }
    ensures corners_value { result.corners ≡ corners surface.now.w surface.now.h surface.now.table.now }
{
    let mut buffer = [Entry::NONE; 64];
    let mut found = 0;
    let mut turned = 0;
    for y in 0..surface.h {
        if scans[y] {
            let here = row(surface, y, &mut buffer);
            write_row(y, &buffer[..here.entries], room, 8 * found);
            found += here.entries;
            turned += here.corners;
        }
    }
    Counts {
        entries: found,
        corners: turned,
    }
}

// Code 7: "list room shorter than 8 bytes for each entry". "At most W·H entries exist", so that a room for as many asks for no counting.
fn short(surface: &Surface, scans: &[bool], n: usize) -> bool
    requires { Scans surface.now.h surface.now.table.now scans.now }
    ensures { result ≡ ltb n (8 * length (entries (occupied surface.now.table.now) surface.now.w surface.now.h)) }
{
    if 8 * (surface.w * surface.h) <= n {
        return false;
    }
    let mut buffer = [Entry::NONE; 64];
    let mut found = 0;
    for y in 0..surface.h {
        if scans[y] {
            found += row(surface, y, &mut buffer).entries;
        }
    }
    n < 8 * found
}

// The listing of a surface that stands: nothing is written where the room is short. The list is not built anywhere: its rows are walked once,
// and where the room might be short once more before.
pub fn list_standing(surface: &Surface, room: &mut [u8]) -> Result<Counts, Refusal>
    ensures result_value { result ≡ listing surface.now.w surface.now.h surface.now.table.now room.old }
    ensures number { listing_number result ≡ listed_result surface.now.w surface.now.h surface.now.table.now room.old }
    ensures room_after { room.new ≡ listed_room surface.now.w surface.now.h surface.now.table.now room.old }
{
    let mut scans = [false; 64];
    scanned_rows(surface.h, surface.table, &mut scans);
    if short(surface, &scans, room.len()) {
        return Err(Refusal::RoomShort);
    }
    Ok(write_list(surface, &scans, room))
}
