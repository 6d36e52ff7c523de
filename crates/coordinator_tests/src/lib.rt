#![tactic(auto)]

#[cfg(test)]
mod book_laws_calls;
#[cfg(test)]
mod coordinator_calls;
#[cfg(test)]
mod journal_replay_calls;
#[cfg(test)]
mod junction;
