// No code: the three demands, stated over the definitions and the contracts of the other crates, and proved (docs/DEMANDS.md is the guide); the starred
// examples; and laws of single calls on which the demands rest.
#![tactic(auto)]
