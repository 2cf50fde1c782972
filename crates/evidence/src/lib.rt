// No code: what shows that the demands are about something. Runs and the paper's starred cases, computed; and the intakes that the paper shuts out, none of which
// meets the demand that the paper names for it.
#![tactic(auto)]
