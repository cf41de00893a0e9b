// What follows for every keeper whose answers are right, each theorem named by the contract of a function that has nothing to do: it is proved
// only if the theorem is. `can` says which events the keeper can do, and `f` is what it does.
ghost use Rattle.std.specs.Prelude.{ℕ, Bool};
ghost use Rattle.grounds.specs.Worlds.{Program};
ghost use Rattle.grounds.specs.Promises.{AnswersFit, Right, Lowest};
ghost use Rattle.grounds.specs.Statements.{NobodyElses, GroundKeeps, NoTrouble, GotIsZero, OutKeeps, BackOnce, Rests};
ghost use Rattle.grounds.specs.Statements.{RoomForMany, LittleMore, NothingLeaks, SpoiltStays, SpoiltFound, MarkTells};
ghost use Rattle.grounds.specs.Statements.{FoundExactly, HarmIsThere, NothingElse};
ghost use Rattle.grounds.specs.OneAnswer.{OneAnswer};
ghost use Rattle.grounds.specs.Model.{model};
ghost use Rattle.grounds.specs.Examples.{PremisesMet};

pub fn nobody_elses()
    ensures { (can : ℕ → Bool) (f : Program) → Right can f → NobodyElses can f }
{}

pub fn ground_keeps()
    ensures { (can : ℕ → Bool) (f : Program) → Right can f → GroundKeeps can f }
{}

pub fn answers_fit()
    ensures { (can : ℕ → Bool) (f : Program) → Right can f → AnswersFit can f }
{}

pub fn no_trouble()
    ensures { (can : ℕ → Bool) (f : Program) → Right can f → NoTrouble can f }
{}

pub fn got_is_zero()
    ensures { (can : ℕ → Bool) (f : Program) → Right can f → GotIsZero can f }
{}

pub fn out_keeps()
    ensures { (can : ℕ → Bool) (f : Program) → Right can f → OutKeeps can f }
{}

pub fn back_once()
    ensures { (can : ℕ → Bool) (f : Program) → Right can f → BackOnce can f }
{}

pub fn rests()
    ensures { (can : ℕ → Bool) (f : Program) → Right can f → Rests can f }
{}

pub fn room_for_many()
    ensures { (can : ℕ → Bool) (f : Program) → Right can f → RoomForMany can f }
{}

pub fn little_more()
    ensures { (can : ℕ → Bool) → LittleMore can }
{}

pub fn nothing_leaks()
    ensures { (can : ℕ → Bool) (f : Program) → Right can f → NothingLeaks can f }
{}

pub fn spoilt_stays()
    ensures { SpoiltStays }
{}

pub fn spoilt_found()
    ensures { (can : ℕ → Bool) (f : Program) → Right can f → SpoiltFound can f }
{}

pub fn mark_tells()
    ensures { (can : ℕ → Bool) (f : Program) → Right can f → MarkTells can f }
{}

pub fn found_exactly()
    ensures { (can : ℕ → Bool) (f : Program) → Right can f → FoundExactly can f }
{}

pub fn harm_is_there()
    ensures { (can : ℕ → Bool) (f : Program) → Right can f → HarmIsThere can f }
{}

pub fn nothing_else()
    ensures { (can : ℕ → Bool) (f : Program) → Right can f → NothingElse can f }
{}

// And of the model: that the promises can be kept, that under the rule of the lowest place there is one answer, and that the premises can be met.
pub fn model_is_right()
    ensures { (can : ℕ → Bool) → Right can (model can) }
{}

pub fn model_is_lowest()
    ensures { (can : ℕ → Bool) → Lowest can (model can) }
{}

pub fn one_answer()
    ensures { (can : ℕ → Bool) → OneAnswer can }
{}

pub fn premises_met()
    ensures { PremisesMet }
{}
