// The limits of L and W (document 01, "Lines and cells").
ghost use Rattle.std.specs.Prelude.{◌≡◌};
ghost use Rattle.board.specs.Board.{shaped, shape_outside, workers_outside, outside};

// "L, the cell lines, is 1 to 511"
pub fn lines_outside(lines: u64) -> bool
    ensures { result ≡ shape_outside (shaped lines) }
{
    !(1..=511).contains(&lines)
}

// "W, the workers, is 1 to 8, and W < 2L": halved, since twice a lent number could wrap
pub fn workers_outside(lines: u64, workers: u64) -> bool
    ensures { result ≡ workers_outside (shaped lines) workers }
{
    !((1..=8).contains(&workers) & (workers / 2 < lines))
}

// "L or W outside the limits above"
pub fn outside(lines: u64, workers: u64) -> bool
    ensures { result ≡ outside (shaped lines) workers }
{
    lines_outside(lines) | workers_outside(lines, workers)
}
