// A scenario that is opened.
use run_base::open::open;
use scenario_reader::read::read_scenario;
use std::test::Fail;

#[test]
fn a_scenario_opens_with_an_empty_journal(rt: HostRuntime) -> Result<(), Fail> {
    let input = b"fleet 1\ncell a b\nlane a b 1\nrobot r1 a\nend\n";
    let scenario = read_scenario(rt.alloc(), input).map_err(|_| "refused")?;
    let run = open(rt.alloc(), scenario).map_err(|_| "out of memory")?;
    assert!(rt; run.fleet.journal().is_empty());
    assert!(rt; run.names.find(b"r1").is_some());
    Ok(())
}
