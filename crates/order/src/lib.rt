// Theory: graphs over keys, in specs/.
#![tactic(auto)]
