// Theory alone: runs for and against a group, and the counters that keep the groups which are ahead.
#![tactic(auto)]
