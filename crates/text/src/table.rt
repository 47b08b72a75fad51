// The table of the powers of ten.
ghost use Rattle.text.specs.Powers.{PowersOfTen};

// A table of the powers of ten, lent to what writes a number.
#[derive(Clone, Copy)]
pub(crate) struct PowerTable<'a> {
    pub(crate) powers: &'a [u64; 20],
    pub(crate) ghost tenfold: { PowersOfTen powers.now },
}

const POWERS: [u64; 20] = [
    1,
    10,
    100,
    1000,
    10000,
    100000,
    1000000,
    10000000,
    100000000,
    1000000000,
    10000000000,
    100000000000,
    1000000000000,
    10000000000000,
    100000000000000,
    1000000000000000,
    10000000000000000,
    100000000000000000,
    1000000000000000000,
    10000000000000000000,
];

// The powers of ten, 1 to 10^19, to be lent to what writes a number: a table built once for a line costs less than one for
// each number.
pub fn powers() -> [u64; 20]
    ensures { PowersOfTen result }
{
    POWERS
}
