// freelist: "It reads request records from standard input and keeps a table of 256 slots." What the records mean is in the crate `stream`; here they are
// read, in pieces of any size, and the answers and the list printed.
#![tactic(auto)]

ghost use Rattle.std.specs.Prelude.{◌≡◌, ◌*◌, ◌/◌, ◌≤◌, length, take};
ghost use Rattle.stream.specs.Memory.{kept_in, AllServedIn, SoFarIn};

use std::io;
use std::io::{Read, Write};
use stream::memory::Memory;
use stream::pieces::{carry, whole};

// "It prints one line a record": `code operation id x y w h`
fn answer_lines<W: Write>(out: &mut W, answers: &[u8]) -> io::Result<()> {
    for &[code, operation, low, high, x, y, w, h] in answers.as_chunks::<8>().0 {
        let id = u16::from_le_bytes([low, high]);
        writeln!(out, "{code} {operation} {id} {x} {y} {w} {h}")?;
    }
    Ok(())
}

// One "for each list entry": `m x y w h area`
fn entry_lines<W: Write>(out: &mut W, entries: &[u8]) -> io::Result<()> {
    for &[x, y, w, h, low, high, ..] in entries.as_chunks::<8>().0 {
        let area = u16::from_le_bytes([low, high]);
        writeln!(out, "m {x} {y} {w} {h} {area}")?;
    }
    Ok(())
}

// `corners C list N`, and `cut N` where bytes remain.
fn last_lines<W: Write>(
    out: &mut W,
    corners: usize,
    entries: usize,
    left: usize,
) -> io::Result<()> {
    writeln!(out, "corners {corners} list {entries}")?;
    if left != 0 {
        writeln!(out, "cut {left}")?;
    }
    Ok(())
}

// Reads behind the first `held` bytes. The result is how many there are then: as many as before where the input has ended. A read that fails is taken
// for its end.
fn read_on<R: Read>(input: &mut R, q: &mut [u8], held: usize) -> usize
    requires { held ≤ length q.old }
    ensures { (held ≤ result) × (result ≤ length q.new) × (take held q.new ≡ take held q.old) }
{
    held + input.read(&mut q[held..]).unwrap_or(0)
}

// The whole records among the first n bytes are served; their answers stand at the start of `answers`.
fn serve_piece(memory: &mut Memory, piece: &[u8], n: usize, answers: &mut [u8])
    requires { (n ≤ length piece.now) × (length piece.now ≡ 4096) × (length answers.old ≡ 4096) }
    ensures { AllServedIn (take (8 * (n / 8)) piece.now) (kept_in memory.old) memory.new (take (8 * (n / 8)) answers.new) }
{
    let m = whole(n);
    memory.serve(&piece[..m], &mut answers[..m]);
}

// The end of the output, after some reads; `left` has the bytes that are held then.
fn finish<W: Write>(out: &mut W, memory: &Memory, left: &[u8]) -> io::Result<()>
    requires { SoFarIn memory.now left.now }
{
    let mut room = [0; 32768];
    let counts = memory.list_kept(&mut room);
    entry_lines(out, &room[..8 * counts.entries])?;
    last_lines(out, counts.corners, counts.entries, left.len())
}

// From the first state on. Nothing says that the input ends, so the turns are as many as no run uses up.
fn run<R: Read, W: Write>(input: &mut R, out: &mut W) -> io::Result<()> {
    let mut memory = Memory::new();
    let mut piece = [0; 4096];
    let mut answers = [0; 4096];
    let mut held = 0;
    for _ in 0..u64::MAX {
        let n = read_on(input, &mut piece, held);
        if n == held {
            break;
        }
        serve_piece(&mut memory, &piece, n, &mut answers);
        answer_lines(out, &answers[..whole(n)])?;
        held = carry(&mut piece, n);
    }
    finish(out, &memory, &piece[..held])
}

fn main(rt: HostRuntime) -> io::Result<()> {
    run(&mut rt.stdin(), &mut rt.stdout())
}
