// Theory: the rules of 004's Tables VII and X as relations, in specs/.
#![tactic(auto)]
