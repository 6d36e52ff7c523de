#![tactic(auto)]

#[cfg(test)]
mod fleet_assign_calls;
#[cfg(test)]
mod fleet_check_calls;
#[cfg(test)]
mod fleet_cli_calls;
#[cfg(test)]
mod fleet_replay_calls;
#[cfg(test)]
mod fleet_route_calls;
#[cfg(test)]
mod form_base_calls;
