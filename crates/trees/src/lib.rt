// Theory alone: the definitions and laws of groups, rows, checks, numbering, comparing and reporting are in specs/.
#![tactic(auto)]
