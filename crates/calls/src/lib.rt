// No code: the laws of single calls on which the demands rest, for every sound state.
#![tactic(auto)]
