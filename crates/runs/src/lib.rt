// Theory alone: the definitions and laws of runs in force, the study's words, the calls that change them and histories are in specs/.
#![tactic(auto)]
