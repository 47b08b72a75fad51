// A row by line, and the header's words. Which word of a line it is, and which half, is a plain number, whose bound each
// function asks for: the callers name it by a literal, or by a cell's number mod 2.
ghost use Rattle.std.specs.Prelude.{◌≡◌, ◌+◌, ◌<◌, ◌≤◌, length, get_or, set};
ghost use Rattle.line.specs.Line.{line_start, line_of, with_line};

// Write-back: the memory row's part is filled from the cache's.
pub fn write_back(memory: &mut [u64], cache: &[u64], line: usize)
    requires { (line_start line + 8 ≤ length memory.old) × (line_start line + 8 ≤ length cache.now) }
    ensures { memory.new ≡ with_line memory.old line (line_of cache.now line) }
{
    let start = 8 * line;
    let end = start + 8;
    memory[start..end].copy_from_slice(&cache[start..end]);
}

// Eight given words, stored in a line.
pub fn store_line(row: &mut [u64], line: usize, words: [u64; 8])
    requires { line_start line + 8 ≤ length row.old }
    ensures { row.new ≡ with_line row.old line words }
{
    let start = 8 * line;
    row[start..start + 8].copy_from_slice(&words);
}

// A word of the header, read in line 0's part of the row.
pub fn header_word(row: &[u64], k: usize) -> u64
    requires { (8 ≤ length row.now) × (k < 8) }
    ensures { result ≡ get_or row.now k 0 }
{
    let header = &row[0..8];
    header[k]
}

// The same of a row that may be shorter than a line: a word that is not there is 0.
pub fn header_word_or_zero(row: &[u64], k: usize) -> u64
    requires { k < 8 }
    ensures { result ≡ get_or row.now k 0 }
{
    row.get(k).copied().unwrap_or(0)
}

// A word of the header, stored in line 0's part of the row.
pub fn store_header_word(row: &mut [u64], k: usize, value: u64)
    requires { (8 ≤ length row.old) × (k < 8) }
    ensures { row.new ≡ set row.old k value }
{
    let header = &mut row[0..8];
    header[k] = value;
}
