//! How fast a site is built and asked. It prints the counts of a large site, or with the word
//! `time` the milliseconds that building it and asking it takes.
#![tactic(auto)]

use fleet_base::numbers::{CellNo, ClaimNo};
use site_map::builder::SiteBuilder;
use site_map::refused::BuildRefused;
use site_map::site::Site;
use std::alloc::Global;
use std::time::{Clock, Instant};
use std::{env, io};

// Cells, with 8 links from each.
fn add_cells(builder: &mut SiteBuilder) -> Result<(), BuildRefused> {
    for _ in 0..1_024u32 {
        builder.cell()?;
    }
    for from in 0..1_024u32 {
        for step in 1..9u32 {
            let to = CellNo((from + 131 * step) % 1_024);
            builder.link(CellNo(from), to, step)?;
        }
    }
    Ok(())
}

// Crossings of 8 cells, with each cell in two of them, and areas. Each crossing has one claim.
fn add_crossings(builder: &mut SiteBuilder) -> Result<(), BuildRefused> {
    for number in 0..256u32 {
        let first = 4 * number;
        let cells = [
            CellNo(first),
            CellNo(first + 3),
            CellNo(first + 1),
            CellNo(first + 2),
            CellNo((first + 4) % 1_024),
            CellNo((first + 7) % 1_024),
            CellNo((first + 5) % 1_024),
            CellNo((first + 6) % 1_024),
        ];
        let crossing = builder.crossing(&cells)?;
        if number % 2 == 0 {
            builder.flow(crossing, &cells)?;
        }
        builder.area(&cells)?;
    }
    Ok(())
}

fn build(alloc: Global) -> Result<Site, BuildRefused> {
    let mut builder = SiteBuilder::new(alloc);
    add_cells(&mut builder)?;
    add_crossings(&mut builder)?;
    Ok(builder.finish())
}

// How many claims the footprints have, and how many pairs of cells one behind the other conflict.
fn ask(site: &Site) -> (u32, u32) {
    let cells = site.cell_count();
    let mut claims = 0u32;
    let mut conflicts = 0u32;
    for number in 0..cells {
        let footprint = site.footprint(CellNo(number));
        for claim in footprint.list() {
            claims = claims.saturating_add(1);
            if site.conflict(*claim, ClaimNo(number)) {
                conflicts = conflicts.saturating_add(1);
            }
        }
    }
    (claims, conflicts)
}

fn millis(rt: &impl Clock, start: Instant) -> io::Result<u64> {
    let taken = start.elapsed(rt)?;
    let seconds = taken.as_secs().saturating_mul(1_000);
    Ok(seconds.saturating_add(u64::from(taken.subsec_nanos() / 1_000_000)))
}

fn time(rt: &(impl Clock + Print), alloc: Global) -> io::Result<()> {
    let start = Instant::now(rt)?;
    for _ in 0..100u32 {
        if build(alloc).is_err() {
            return println!(rt; "no site");
        }
    }
    println!(rt; "100 sites built in {} milliseconds", millis(rt, start)?)?;
    let Ok(site) = build(alloc) else {
        return println!(rt; "no site");
    };
    let start = Instant::now(rt)?;
    let mut last = (0, 0);
    for _ in 0..100u32 {
        last = ask(&site);
    }
    let taken = millis(rt, start)?;
    println!(rt;
        "100 times {} claims and {} conflicts in {taken} milliseconds",
        last.0, last.1
    )
}

fn main(rt: HostRuntime) -> io::Result<()> {
    for word in env::args(&rt)?.skip(1) {
        if word.as_str() == "time" {
            return time(&rt, rt.alloc());
        }
    }
    let Ok(site) = build(rt.alloc()) else {
        return println!(rt; "no site");
    };
    let (claims, conflicts) = ask(&site);
    println!(rt;
        "{} cells, {} crossings, {} areas, {} links, {} claims",
        site.cell_count(),
        site.crossing_count(),
        site.area_count(),
        site.link_count(),
        site.claim_count()
    )?;
    println!(rt; "{claims} claims in footprints, {conflicts} conflicts")
}
