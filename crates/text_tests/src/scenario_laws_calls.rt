// A scenario that was read from a text in another order, printed, and read again.
use scenario::print::print_scenario;
use scenario::scenario::Scenario;
use scenario_laws::values::scenario_reads_back;
use scenario_reader::read::read_scenario;
use std::alloc::Global;
use std::test::Fail;

const MIXED: &str =
    "fleet 2\ncell b\narea yard b\ncell a c\ncrossing x c a b\nflow x a\nlane c a 3\nrobot r1 b\nmission r1\nrepeat 2\nvisit yard\nagain\nvisit c\ndone\nend\n";

const PRINTED: &str =
    "fleet 2\ncell b\ncell a\ncell c\ncrossing x b a c\nflow x a\nflow x b c\narea yard b\nlink a c 3\nlink c a 3\nrobot r1 b\nmission r1\nvisit yard\nvisit yard\nvisit c\ndone\nend\n";

fn read(alloc: Global, text: &[u8]) -> Option<Scenario> {
    if text.len() > 1_000_000 {
        return None;
    }
    read_scenario(alloc, text).ok()
}

// What is printed of a text's scenario.
fn printed(alloc: Global, text: &str) -> Option<Vec<u8>> {
    let scenario = read(alloc, text.as_bytes())?;
    scenario_reads_back(&scenario);
    print_scenario(alloc, &scenario).ok()
}

#[test]
fn what_is_printed_is_printed_again(rt: HostRuntime) -> Result<(), Fail> {
    for text in [MIXED, PRINTED] {
        let text = printed(rt.alloc(), text).ok_or("printed")?;
        assert!(rt; text.as_slice() == PRINTED.as_bytes());
    }
    Ok(())
}
