// No code: every public entry and every public function by its name, with what demand 1 asks of it, and the proof that each is so.
#![tactic(auto)]
