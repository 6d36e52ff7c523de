//! Commands to robots.

use fleet_base::numbers::RobotNo;
use fleet_calls::request::Request;

/// A command: what a robot is to ask of the coordinator. The number of a report's event is below
/// 1,000,000,000,000,000.
#[derive(Drop)]
pub struct Command {
    /// The robot.
    pub robot: RobotNo,
    /// What it asks.
    pub request: Request,
}
