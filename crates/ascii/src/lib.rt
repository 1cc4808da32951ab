// Theory alone: texts in ASCII, and numbers in decimal, are in specs/.
#![tactic(auto)]
