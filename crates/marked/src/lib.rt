// Theory alone, and no code: the marked streams of document 01 as one table (`specs/Marked.antt`), and that the direct run gives on each what
// the document says (`proofs/MarkedStreams.antt`), from the models' texts to the bytes put out.
#![tactic(auto)]
