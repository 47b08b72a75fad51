// The bytes of a line that goes on from piece to piece, and where a line ends. A piece is lent whole, with the place from which
// it is looked at, as the answer is a place in it; the kept bytes are the first of 80 that are lent, since nothing is allocated.
ghost use Rattle.std.specs.Prelude.{◌≡◌, ◌+◌, ◌≤◌, true, ◌++◌, length, take, drop};
ghost use Rattle.console.specs.Bytes.{index_of};
ghost use Rattle.text.specs.Ascii.{feed};
ghost use Rattle.text.specs.Writing.{put};
ghost use Rattle.console.specs.Pieces.{LineGoesOn};

// Whether none of the eight bytes from `i` on ends a line. All of them are looked at, so that the compiler tests them at
// once.
fn quiet(text: &[u8], i: usize) -> bool
    requires { i + 8 ≤ length text.now }
    ensures { result ≡ true → index_of feed (drop i text.now) ≡ 8 + index_of feed (drop (i + 8) text.now) }
{
    (text[i] != b'\n')
        & (text[i + 1] != b'\n')
        & (text[i + 2] != b'\n')
        & (text[i + 3] != b'\n')
        & (text[i + 4] != b'\n')
        & (text[i + 5] != b'\n')
        & (text[i + 6] != b'\n')
        & (text[i + 7] != b'\n')
}

// The first place from `from` on, by eights, from which fewer than eight bytes are left or one of eight ends a line. By
// eights, as that is faster (bench/trials.md).
fn skip_quiet(text: &[u8], from: usize) -> usize
    requires { from ≤ length text.now }
    ensures { LineGoesOn text.now from result }
{
    let mut i = from;
    while text.len() - i >= 8 && quiet(text, i) {
        i += 8;
    }
    i
}

// Where the line that goes on at `from` ends: at the next line feed or the text's end. Counted by hand: `position`,
// or a `for` over the places, took the line loop 22 instructions more a line, 7 of 100.
pub fn feed_at(text: &[u8], from: usize) -> usize
    requires { from ≤ length text.now }
    ensures { (result ≡ from + index_of feed (drop from text.now)) × (from ≤ result) × (result ≤ length text.now) }
{
    let mut i = skip_quiet(text, from);
    while i < text.len() {
        if text[i] == b'\n' {
            return i;
        }
        i += 1;
    }
    i
}

// More bytes of a line of which `begun` are kept; what comes after 80 bytes is dropped. Gives how many are kept.
pub fn keep(line: &mut [u8], begun: usize, more: &[u8]) -> usize
    requires { (begun ≤ 80) × (length line.old ≡ 80) }
    ensures { (take result line.new ≡ take 80 (take begun line.old ++ more.now)) × (result ≤ 80) }
{
    let n = (80 - begun).min(more.len());
    line[begun..begun + n].copy_from_slice(&more[..n]);
    begun + n
}
