// Laws of the integers that the toolchain's library lacks. There is no code here: proofs/Laws.antt has the lemmas that the
// proofs of the other crates share.
#![tactic(auto)]
