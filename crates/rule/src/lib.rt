// No code: the grouping rule as a function of the packets that a lane has accepted, and the proof that what is planned for a packet is its word.
#![tactic(auto)]
