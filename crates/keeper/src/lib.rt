// The keeper: what is asked of it, over its memory and the ground, both lent. There is no code here yet: the keeper is a definition in specs/, and each
// theorem on it is the contract of a function that has nothing to do.
#![tactic(auto)]

ghost use Rattle.grounds.specs.Promises.{EnoughMemory, Lowest, Right, RightLengths, RightOpening, thin};
ghost use Rattle.keeper.specs.Keeper.{keeper as the_keeper};

// Small pieces are got, given back and told the size of, rightly, whatever anybody wrote on the ground.
pub fn keeper_is_right()
    ensures { Right thin the_keeper }
{}

// It takes the lowest place.
pub fn keeper_is_lowest()
    ensures { Lowest thin the_keeper }
{}

pub fn keeper_has_memory()
    ensures { EnoughMemory thin the_keeper }
{}

// Memory or ground of another length is refused.
pub fn keeper_minds_lengths()
    ensures { RightLengths thin the_keeper }
{}

pub fn keeper_opens()
    ensures { RightOpening thin the_keeper }
{}
