// Cause 2: "phase doesn't allow the call".
ghost use Rattle.std.specs.Prelude.{◌≡◌, List, ℕ};
ghost use Rattle.board.specs.Causes.{not_on, not_recovering_or_running, not_running};
ghost use Rattle.board.specs.Next.{lent};

use board::{Phase, State};

// "The step call needs a phase other than off."
pub fn not_on(state: State) -> bool
    ensures { (m c : List ℕ) → result ≡ not_on (lent state m c) }
{
    state.phase == Phase::Off
}

// "Write-back needs recovering or running."
pub fn not_recovering_or_running(state: State) -> bool
    ensures { (m c : List ℕ) → result ≡ not_recovering_or_running (lent state m c) }
{
    matches!(state.phase, Phase::Off | Phase::Formatting)
}

// "All else needs running."
pub fn not_running(state: State) -> bool
    ensures { (m c : List ℕ) → result ≡ not_running (lent state m c) }
{
    state.phase != Phase::Running
}
