// Reads a share count and a plan from standard input, and writes the plan's share program to standard output, one word a line, or the
// number of the turn-down. A piece of some tens of kilobytes is held at a time, never the whole share program.
#![tactic(auto)]

ghost use Rattle.std.specs.Prelude.{◌≡◌, ◌<◌, length, take, Some, is_ok};
ghost use Rattle.io.specs.Counts.{IsPrefixLen};
ghost use Rattle.listing_input.specs.Input.{input_max};
ghost use Rattle.listing.specs.Sharelist.{listing};
ghost use Rattle.sharelist.specs.HandedOn.{Follows, HandedAll, HandedOn, standard_output};
ghost use Rattle.sharelist.specs.Whole.{MoreRead, WasRead, Whole, standard_input};

use listing::pieces::list_piece;
use listing_input::INPUT_MAX;
use std::io::{Read, Write};
use std::os::fd::AsRawFd;

// One byte more than an input may have, so that a longer one is seen.
const INPUT: usize = INPUT_MAX + 1;

// Hands on, to standard output, bytes of an input's listing that follow the `sent` ones counted before, and counts them; where that fails it counts
// none.
fn hand_on<W: Write + AsRawFd + Copy>(
    mut out: W,
    input: &[u8],
    text: &[u8],
    sent: &mut usize,
) -> std::io::Result<()>
    requires fd_value { W.raw_fd out ≡ Some standard_output }
    requires follows { Follows (listing input.now) sent.old text.now }
    ensures { HandedOn sent.old text.now (is_ok result) sent.new }
{
    out.write_all(text)?;
    *sent += text.len();
    Ok(())
}

// Hands on the listing of an input piece by piece, as long as that goes well.
fn list<W: Write + AsRawFd + Copy>(out: W, input: &[u8], sent: &mut usize) -> std::io::Result<()>
    requires fd_value { W.raw_fd out ≡ Some standard_output }
    requires sent_value { sent.old ≡ 0 }
    ensures { HandedAll (listing input.now) (is_ok result) sent.new }
{
    let mut buffer = io::large_buffer();
    let mut at = 0;
    loop {
        let piece = list_piece(input, at, &mut buffer);
        hand_on(out, input, &buffer[..piece.bytes], sent)?;
        if piece.last {
            return Ok(());
        }
        at = piece.next;
    }
}

// What was read: how many bytes, and what the last read answered, which is negative where it failed, as POSIX has it: `Whole` is said of that
// number, and refuses one that is negative, so that no listing is made of an input whose reading failed.
#[derive(Clone, Copy)]
struct Input {
    count: usize,
    last: isize,
}

// The listing of what was read, where it is whole.
fn list_read<W: Write + AsRawFd + Copy>(
    out: W,
    buffer: &[u8],
    read: Input,
    sent: &mut usize,
) -> std::io::Result<()>
    requires fd_value { W.raw_fd out ≡ Some standard_output }
    requires prefix_len { IsPrefixLen read.count buffer.now }
    requires whole { Whole read.count read.last }
    requires sent_value { sent.old ≡ 0 }
    ensures { HandedAll (listing (take read.count buffer.now)) (is_ok result) sent.new }
{
    list(out, &buffer[..read.count], sent)
}

// One read behind the first `count` bytes, of which there is room for more: they stay, and the answer's bytes are counted.
fn read_more<R: Read + AsRawFd + Copy>(mut from: R, input: &mut [u8], count: usize) -> Input
    requires fd_value { R.raw_fd from ≡ Some standard_input }
    requires count_in_bounds { count < length input.old }
    ensures { MoreRead input.old count input.new result.count result.last }
{
    let last = match from.read(&mut input[count..]) {
        Ok(given) => given as isize,
        Err(_) => -1,
    };
    let more = io::count(last, &input[count..]);
    Input {
        count: count + more,
        last,
    }
}

// Reads up to the end of the input, where a read gives no bytes, until the buffer is full, or until a read fails: a read may give fewer bytes
// than there are.
fn read_input<R: Read + AsRawFd + Copy>(from: R, input: &mut [u8]) -> Input
    requires fd_value { R.raw_fd from ≡ Some standard_input }
    requires input_max_in_bounds { input_max < length input.old }
    ensures prefix_len { IsPrefixLen result.count input.new }
    ensures was_read { WasRead result.count result.last }
{
    let mut count = 0;
    loop {
        let read = read_more(from, input, count);
        if read.last <= 0 {
            return read;
        }
        count = read.count;
        if count == input.len() {
            return read;
        }
    }
}

fn main(rt: HostRuntime) -> std::io::Result<()> {
    let mut input = [0u8; INPUT];
    let read = read_input(rt.stdin(), &mut input);
    if read.last < 0 {
        let _ = eprintln!(rt; "sharelist: cannot read");
        return Ok(());
    }
    let mut sent = 0;
    if list_read(rt.stdout(), &input, read, &mut sent).is_err() {
        let _ = eprintln!(rt; "sharelist: cannot write");
    }
    Ok(())
}
