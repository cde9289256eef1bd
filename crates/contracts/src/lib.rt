// What a call on number slices is given and leaves, as the model says it: the contracts stand in specs/.
#![tactic(auto)]
