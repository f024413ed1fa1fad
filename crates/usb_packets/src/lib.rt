// What became of USB packets, which EVT2 recordings may hold: today's reader passes over them, and everything else reads as before (02, R-11).
//
// There is no code here. specs/Before.antt has what the reader did with them, specs/Promises.antt the law that compares it with what today's
// reader does, for words and for RAW files, and proofs/Kept.antt its proof. No other crate lists this one, so nothing else can cite the old meaning.
#![tactic(auto)]
