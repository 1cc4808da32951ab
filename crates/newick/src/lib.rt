// Theory alone: the form of a Newick text, what a text means, the text of a row, and that reading what was written gives the row are in specs/.
#![tactic(auto)]
