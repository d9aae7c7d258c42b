// Theory alone, and no code: machines that answer each letter of a stream or refuse it. What they say of a stream, when two situations
// are the same state, the states' first arrivals and their rows (`specs/`), and what follows from that (`proofs/`).
#![tactic(auto)]
