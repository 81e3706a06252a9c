// Texts: the first line and the refusal, put together in a string of their own and then written whole or not at all, as any text can be.
ghost use Rattle.std.specs.Prelude.{◌≡◌, ◌++◌, ◌+◌, ◌≤◌, length};
ghost use Rattle.arrayvec.specs.ArrayString.{array_string_len};
ghost use Rattle.listing_lines.specs.Lines.{decimal, first_line, refused_line};
ghost use Rattle.listing_lines.specs.Writing.{Wrote};

use arrayvec::ArrayString;
use itoa::Buffer;

// A line with room for each of these texts. It is put together part by part: `write!` tells what it wrote where it is Ok, and nothing tells that it is.
type Line = ArrayString<96>;

// Adds a label and a number to a line.
fn push_labelled(line: &mut Line, label: &str, n: usize)
    requires { array_string_len line.old + length label.now + 20 ≤ 96 }
    ensures text { line.new.bytes ≡ line.old.bytes ++ (label.now ++ decimal n) }
    ensures bound { array_string_len line.new ≤ array_string_len line.old + length label.now + 20 }
{
    line.push_str(label);
    line.push_str(Buffer::new().format(n));
}

// Writes a text at the front of `out`, or nothing where it does not fit; the answer counts the bytes written.
pub fn put_text(text: &[u8], out: &mut [u8]) -> usize
    ensures { Wrote text.now out.old out.new result }
{
    if out.len() < text.len() {
        return 0;
    }
    out[..text.len()].copy_from_slice(text);
    text.len()
}

// The first line: the share count, share words and tape words. Nothing is written where it does not fit.
pub fn first_line(n: usize, words: usize, tape: usize, out: &mut [u8]) -> usize
    ensures { Wrote (first_line n words tape) out.old out.new result }
{
    let mut line = Line::new();
    push_labelled(&mut line, "shares ", n);
    push_labelled(&mut line, " words ", words);
    push_labelled(&mut line, " tape ", tape);
    line.push_str("\n");
    put_text(line.as_str().as_bytes(), out)
}

// The line of a turn-down. Nothing is written where it does not fit. It takes a number, for `refused_line` is said of every one, and a Refusal has eight.
pub fn refused_line(number: u32, out: &mut [u8]) -> usize
    ensures { Wrote (refused_line number) out.old out.new result }
{
    let mut line = Line::new();
    push_labelled(&mut line, "refused ", number as usize);
    line.push_str("\n");
    put_text(line.as_str().as_bytes(), out)
}
