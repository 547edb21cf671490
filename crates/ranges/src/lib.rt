// Theory: a step of a net in range gives a net in range, in specs/.
#![tactic(auto)]
