//! What a reader's calls mean, and the law over every run of them. The law is not public until the calls stand.
#![tactic(auto)]

mod laws;
