// Tests and lists, with laws that know nothing of the papers: what a test decides, stores one after the other, the rule of a table. There is no
// code here.

#![tactic(auto)]
