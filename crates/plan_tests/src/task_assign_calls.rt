//! Small squares with what trying all their permutations gives, and what the checker refuses.

use std::alloc::Global;
use std::process::Abort;
use std::test::Fail;
use task_assign::{Assignment, Costs, assign, check_assignment};

// The square of these costs, by rows.
fn square(rt: &impl Abort, alloc: Global, size: u32, entries: &[u64]) -> Result<Costs, Fail> {
    assert!(rt; 1 <= size && size <= 64);
    let mut costs = Costs::new(size, alloc).ok().ok_or("no memory")?;
    assert_eq!(rt; entries.len(), (size * size) as usize);
    let mut row = 0;
    let mut column = 0;
    for cost in entries {
        assert!(rt; row < costs.size() && column < costs.size() && *cost <= 1_000_000_000_000);
        costs.set(row, column, *cost);
        assert_eq!(rt; costs.get(row, column), *cost);
        column += 1;
        if column == size {
            column = 0;
            row += 1;
        }
    }
    Ok(costs)
}

#[test]
fn finds_least(rt: HostRuntime) -> Result<(), Fail> {
    let table: [(u32, &[u64], u64, &[u32], &[i64], &[i64]); 17] = [
        (1, &[0], 0, &[0], &[0], &[0]),
        (2, &[2, 0, 1, 1], 1, &[1, 0], &[0, 1], &[0, 0]),
        (2, &[2, 1, 2, 1], 3, &[0, 1], &[0, 0], &[2, 1]),
        (1, &[7], 7, &[0], &[0], &[7]),
        (
            4,
            &[0, 0, 0, 0, 0, 0, 0, 0, 0, 0, 0, 0, 0, 0, 0, 0],
            0,
            &[0, 1, 2, 3],
            &[0, 0, 0, 0],
            &[0, 0, 0, 0],
        ),
        (
            2,
            &[
                1_000_000_000_000,
                1_000_000_000_000,
                1_000_000_000_000,
                1_000_000_000_000,
            ],
            2_000_000_000_000,
            &[0, 1],
            &[0, 0],
            &[1_000_000_000_000, 1_000_000_000_000],
        ),
        (
            2,
            &[0, 1_000_000_000_000, 1_000_000_000_000, 0],
            0,
            &[0, 1],
            &[0, 1_000_000_000_000],
            &[0, -1_000_000_000_000],
        ),
        (
            2,
            &[1_000_000_000_000, 0, 0, 1_000_000_000_000],
            0,
            &[1, 0],
            &[0, 1_000_000_000_000],
            &[-1_000_000_000_000, 0],
        ),
        (
            3,
            &[4, 0, 4, 1, 0, 0, 3, 3, 0],
            1,
            &[1, 0, 2],
            &[0, 0, 2],
            &[1, 0, -2],
        ),
        (
            3,
            &[7, 2, 17, 13, 1, 18, 3, 7, 20],
            21,
            &[2, 1, 0],
            &[0, 1, 3],
            &[0, 0, 17],
        ),
        (
            3,
            &[4, 1, 2, 3, 1, 4, 0, 4, 2],
            3,
            &[2, 1, 0],
            &[0, 2, 0],
            &[0, -1, 2],
        ),
        (
            4,
            &[2, 1, 1, 1, 0, 4, 2, 4, 3, 2, 3, 2, 4, 0, 0, 4],
            3,
            &[1, 0, 3, 2],
            &[0, 1, 1, -1],
            &[-1, 1, 1, 1],
        ),
        (
            4,
            &[13, 5, 10, 4, 15, 13, 1, 2, 17, 18, 10, 10, 11, 19, 15, 18],
            27,
            &[1, 2, 3, 0],
            &[0, 5, 13, 14],
            &[-3, 5, -4, -3],
        ),
        (
            4,
            &[12, 15, 2, 5, 14, 12, 17, 8, 4, 13, 17, 8, 13, 11, 12, 7],
            25,
            &[2, 1, 0, 3],
            &[0, 11, 11, 10],
            &[-7, 1, 2, -3],
        ),
        (
            5,
            &[
                0, 3, 4, 3, 3, 3, 3, 0, 3, 3, 0, 1, 0, 1, 3, 1, 0, 2, 4, 0, 0, 0, 4, 1, 4,
            ],
            1,
            &[0, 2, 3, 4, 1],
            &[0, 2, 0, 0, 0],
            &[0, 0, -2, 1, 0],
        ),
        (
            5,
            &[
                3, 11, 19, 0, 2, 6, 19, 12, 4, 20, 8, 11, 19, 11, 15, 3, 3, 15, 14, 15, 15, 9, 2,
                4, 3,
            ],
            19,
            &[4, 3, 0, 1, 2],
            &[0, 11, 13, 8, 1],
            &[-5, -5, 1, -7, 2],
        ),
        (
            5,
            &[
                2,
                1_000_000_000_000,
                0,
                1_000_000_000_000,
                2,
                1_000_000_000_000,
                0,
                2,
                0,
                2,
                1,
                1_000_000_000_000,
                1_000_000_000_000,
                2,
                1,
                3,
                1,
                1_000_000_000_000,
                1_000_000_000_000,
                0,
                3,
                1_000_000_000_000,
                2,
                1_000_000_000_000,
                2,
            ],
            4,
            &[2, 3, 0, 1, 4],
            &[0, -1, 1, 0, 2],
            &[0, 1, 0, 1, 0],
        ),
    ];
    for (size, entries, total, columns, rows, numbers) in table {
        let costs = square(&rt, rt.alloc(), size, entries)?;
        let found = assign(&costs, rt.alloc()).ok().ok_or("no memory")?;
        assert!(rt; check_assignment(&costs, &found));
        assert_eq!(rt; found.size(), size);
        assert_eq!(rt; found.total(), total, "of {entries:?}");
        for place in 0..found.size() {
            let column = columns.get(place as usize).copied();
            assert_eq!(rt;
                Some(found.column(place)),
                column,
                "at {place} of {entries:?}"
            );
            let row = rows.get(place as usize).copied();
            assert_eq!(rt;
                Some(found.row_number(place)),
                row,
                "at {place} of {entries:?}"
            );
            let number = numbers.get(place as usize).copied();
            assert_eq!(rt;
                Some(found.column_number(place)),
                number,
                "at {place} of {entries:?}"
            );
        }
    }
    Ok(())
}

// An assignment of these parts.
fn parts_of(
    rt: &impl Abort,
    alloc: Global,
    columns: [u32; 2],
    rows: [i64; 2],
    numbers: [i64; 2],
    total: u64,
) -> Result<Assignment, Fail> {
    let [first, second] = rows;
    assert!(rt; -9 <= first && first <= 9 && -9 <= second && second <= 9);
    let [third, fourth] = numbers;
    assert!(rt; -9 <= third && third <= 9 && -9 <= fourth && fourth <= 9);
    Ok(
        Assignment::given(&columns, &[first, second], &[third, fourth], total, alloc)
            .ok()
            .ok_or("no memory")?,
    )
}

#[test]
fn refuses_other_parts(rt: HostRuntime) -> Result<(), Fail> {
    let costs = square(&rt, rt.alloc(), 2, &[2, 1, 2, 1])?;
    for (columns, rows, numbers, total, wanted) in [
        ([0, 1], [0, 0], [2, 1], 3, true),
        ([1, 0], [0, 0], [2, 1], 3, true),
        ([0, 1], [5, 5], [-3, -4], 3, true),
        ([0, 1], [0, 0], [2, 1], 2, false),
        ([0, 0], [0, 0], [2, 1], 4, false),
        ([0, 2], [0, 0], [2, 1], 3, false),
        ([0, 1], [0, 0], [2, 0], 3, false),
        ([0, 1], [0, 1], [2, 0], 3, false),
    ] {
        let parts = parts_of(&rt, rt.alloc(), columns, rows, numbers, total)?;
        assert_eq!(rt;
            check_assignment(&costs, &parts),
            wanted,
            "{columns:?} {rows:?} {numbers:?} {total}"
        );
    }
    let small = Costs::new(1, rt.alloc()).ok().ok_or("no memory")?;
    let parts = parts_of(&rt, rt.alloc(), [0, 1], [0, 0], [2, 1], 3)?;
    assert!(rt; !check_assignment(&small, &parts));
    Ok(())
}
