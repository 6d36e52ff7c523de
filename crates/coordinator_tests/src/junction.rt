//! The site of these tests: a junction.

use fleet_base::numbers::CellNo;
use site_map::builder::SiteBuilder;
use site_map::refused::BuildRefused;
use site_map::site::Site;
use std::alloc::Global;

// Lanes from cell 1 to the cells 0, 2 and 3.
pub fn junction(alloc: Global) -> Result<Site, BuildRefused> {
    let mut builder = SiteBuilder::new(alloc);
    for _ in 0..4u32 {
        builder.cell()?;
    }
    for other in [0, 2, 3u32] {
        builder.link(CellNo(1), CellNo(other), 1)?;
        builder.link(CellNo(other), CellNo(1), 1)?;
    }
    Ok(builder.finish())
}
