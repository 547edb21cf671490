// Theory: document 01's starred cases, by computing, in specs/.
#![tactic(auto)]
