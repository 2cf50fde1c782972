// No code: which octets are at fault where a packet is refused, and the proof that the place that reading tells is the first of them.
#![tactic(auto)]
