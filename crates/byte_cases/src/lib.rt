// Theory: document 01's starred cases on bytes, in specs/.
#![tactic(auto)]
