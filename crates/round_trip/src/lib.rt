// Reading and writing together. No function: the laws stand in specs/.
#![tactic(auto)]
