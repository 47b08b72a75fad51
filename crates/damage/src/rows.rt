// Words of a row put anew, and a row made longer or shorter.
ghost use Rattle.std.specs.Prelude.{◌≡◌, ◌≤◌, length, take};
ghost use Rattle.std.specs.Option.{is_some};
ghost use Rattle.damage.specs.Rows.{word_fits, Stored, resized};

// "M i v", "N i v": a word := v, if there is such a word.
pub fn store(row: &mut [u64], at: u64, word: u64) -> Option<()>
    ensures { Stored (word_fits row.old at) row.old at word (is_some result) row.new }
{
    if at >= row.len() as u64 {
        return None;
    }
    row[at as usize] = word;
    Some(())
}

// "words that stay keep their contents, new ones are 0": the row is the first `used` words of an array, and then the first
// `size`; the array is fixed, as the program allocates nothing.
pub fn resize(row: &mut [u64], used: usize, size: usize)
    requires { (used ≤ length row.old) × (size ≤ length row.old) }
    ensures { take size row.new ≡ resized (take used row.old) size }
{
    if used < size {
        row[used..size].fill(0);
    }
}
