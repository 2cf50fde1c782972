// No code: a frame recording as it is sent, lost in part and received, and the proof that each packet lying wholly in received frames comes out once, in order.
#![tactic(auto)]
