// Theory: the calls on bytes are the published rules, in specs/.
#![tactic(auto)]
