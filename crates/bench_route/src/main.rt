//! How fast the least route is found and checked. It prints the routes across grids and across the
//! largest site, or with the word `time` the microseconds that each takes.
#![tactic(auto)]

use fleet_base::numbers::CellNo;
use route_plan::cell_set::CellSet;
use route_plan::checker::check_route;
use route_plan::finder::least_route;
use route_plan::refused::RouteRefused;
use site_map::builder::SiteBuilder;
use site_map::refused::BuildRefused;
use site_map::site::Site;
use std::alloc::Global;
use std::time::{Clock, Instant};
use std::{env, io};

// A grid with so many cells on each side, 1 to 32, and lanes between neighbours.
fn grid(side: u32, alloc: Global) -> Result<Site, BuildRefused> {
    let mut builder = SiteBuilder::new(alloc);
    let side = side.clamp(1, 32);
    let count = side.saturating_mul(side).min(1_024);
    for _ in 0..count {
        builder.cell()?;
    }
    for here in 0..count {
        let cost = 1 + here % 5;
        if here % side + 1 < side {
            builder.link(CellNo(here), CellNo(here + 1), cost)?;
            builder.link(CellNo(here + 1), CellNo(here), cost)?;
        }
        if here + side < count {
            builder.link(CellNo(here), CellNo(here + side), cost)?;
            builder.link(CellNo(here + side), CellNo(here), cost)?;
        }
    }
    Ok(builder.finish())
}

// The largest site: 1,024 cells with 8 links from each.
fn largest(alloc: Global) -> Result<Site, BuildRefused> {
    let mut builder = SiteBuilder::new(alloc);
    for _ in 0..1_024u32 {
        builder.cell()?;
    }
    for from in 0..1_024u32 {
        for step in 1..9u32 {
            let to = CellNo((from + 131 * step) % 1_024);
            let cost = 1 + (from * step) % 997;
            builder.link(CellNo(from), to, cost)?;
        }
    }
    Ok(builder.finish())
}

// The cost of the least route from the first cell to the last, how many cells it has, and whether
// the check accepts it.
fn across(site: &Site, alloc: Global) -> Result<(u64, usize, bool), RouteRefused> {
    let count = site.cell_count();
    if count == 0 {
        return Err(RouteRefused::Unreachable);
    }
    let from = CellNo(0);
    let mut goal = CellSet::new();
    goal.put(CellNo(count - 1));
    let avoid = CellSet::new();
    let route = least_route(site, from, &goal, &avoid, alloc)?;
    let accepted = check_route(site, from, &goal, &avoid, &route);
    Ok((route.cost(), route.cells().len(), accepted))
}

fn micros(rt: &impl Clock, start: Instant) -> io::Result<u64> {
    let taken = start.elapsed(rt)?;
    let seconds = taken.as_secs().saturating_mul(1_000_000);
    Ok(seconds.saturating_add(u64::from(taken.subsec_nanos() / 1_000)))
}

// Prints the route across a site, or what 100 of them take.
fn report(
    rt: &(impl Clock + Print),
    name: &str,
    site: &Site,
    alloc: Global,
    times: u32,
) -> io::Result<()> {
    let Ok((cost, cells, accepted)) = across(site, alloc) else {
        return println!(rt; "{name}: no route");
    };
    println!(rt; "{name}: cost {cost}, {cells} cells, accepted {accepted}")?;
    if times == 0 {
        return Ok(());
    }
    let start = Instant::now(rt)?;
    for _ in 0..times {
        let _found = across(site, alloc);
    }
    let taken = micros(rt, start)?;
    println!(rt; "{name}: {times} routes found and checked in {taken} microseconds")
}

fn main(rt: HostRuntime) -> io::Result<()> {
    let mut times = 0u32;
    for word in env::args(&rt)?.skip(1) {
        if word.as_str() == "time" {
            times = 100;
        }
    }
    for (name, side) in [
        ("8 by 8", 8u32),
        ("16 by 16", 16),
        ("24 by 24", 24),
        ("32 by 32", 32),
    ] {
        match grid(side, rt.alloc()) {
            Ok(site) => report(&rt, name, &site, rt.alloc(), times)?,
            Err(_) => println!(rt; "no site")?,
        }
    }
    match largest(rt.alloc()) {
        Ok(site) => report(&rt, "largest", &site, rt.alloc(), times),
        Err(_) => println!(rt; "no site"),
    }
}
