#![tactic(auto)]

#[cfg(test)]
mod fleet_commands_calls;
#[cfg(test)]
mod fleet_names_calls;
#[cfg(test)]
mod fleet_texts_calls;
#[cfg(test)]
mod plan_journal_calls;
#[cfg(test)]
mod run_base_calls;
#[cfg(test)]
mod scenario_calls;
#[cfg(test)]
mod scenario_gen_calls;
#[cfg(test)]
mod scenario_laws_calls;
#[cfg(test)]
mod scenario_reader_calls;
#[cfg(test)]
mod site_lines_calls;
