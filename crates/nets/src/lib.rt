// Theory: nets of keyed records, forward and backward steps, dependence, acceptance and rollback, in specs/.
#![tactic(auto)]
