#![tactic(auto)]

#[cfg(test)]
mod claim_reach_calls;
#[cfg(test)]
mod cycle_cert_calls;
#[cfg(test)]
mod deferral_calls;
#[cfg(test)]
mod event_graph_calls;
#[cfg(test)]
mod merge_op_calls;
#[cfg(test)]
mod plan_events_calls;
#[cfg(test)]
mod robot_tables_calls;
#[cfg(test)]
mod robot_worker_calls;
#[cfg(test)]
mod route_plan_calls;
#[cfg(test)]
mod site_map_calls;
#[cfg(test)]
mod task_assign_calls;
