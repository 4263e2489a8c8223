// What the rules come to by number, computed from the bytes: the starred examples, histories with cuts and a failed step, and why the premise on
// unreadable pages is needed. Statements in specs/, proofs in proofs/, and no code.
#![tactic(auto)]
