// Two sites that take the same quotes, and get ticks at rates of their own, hold the same corridor. No function runs here: what is said of
// `event` and `feed` stands in specs/, and why it holds in proofs/.

#![tactic(auto)]
