//! A route that waits to be merged.

use fleet_base::claim_set::ClaimSet;
use fleet_base::path::Path;

/// A pending route, with the claims that it needs.
#[derive(Drop)]
pub struct Pending {
    pub route: Path,
    pub needs: ClaimSet,
}
