// The lines of share words: eight hexadecimal digits and a line feed each.
#![tactic(auto)]

ghost use Rattle.std.specs.Prelude.{◌≡◌, ◌/◌, ◌%◌, ◌^◌, ◌<◌};
ghost use Rattle.listing_lines.specs.Lines.{hex_digit, hex_line, hex_lines};
ghost use Rattle.listing_lines.specs.Writing.{Wrote};

// The bytes of a share word's line.
pub const LINE: usize = 9;

const DIGITS: [u8; 16] = *b"0123456789ABCDEF";

// The digit of the four bits of a word from one place on.
fn digit(w: u32, place: u32) -> u8
    requires { place < 32 }
    ensures { result ≡ hex_digit (w / 2 ^ place % 16) }
{
    DIGITS[(w >> place) as usize % 16]
}

// A word's line, with its eight digits as `hex_line` has them; a loop over their places names the same eight places.
fn hex_line(w: u32) -> [u8; LINE]
    ensures { result ≡ hex_line w }
{
    [
        digit(w, 28),
        digit(w, 24),
        digit(w, 20),
        digit(w, 16),
        digit(w, 12),
        digit(w, 8),
        digit(w, 4),
        digit(w, 0),
        b'\n',
    ]
}

// One word a line. Nothing is written where the lines do not fit; the answer counts the bytes written.
pub fn hex_lines(words: &[u32], out: &mut [u8]) -> usize
    ensures { Wrote (hex_lines words.now) out.old out.new result }
{
    if out.len() / LINE < words.len() {
        return 0;
    }
    let mut at = 0;
    for w in words {
        out[at..at + LINE].copy_from_slice(&hex_line(*w));
        at += LINE;
    }
    at
}
